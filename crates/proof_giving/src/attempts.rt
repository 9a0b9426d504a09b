//! The attempts of nodes by a transcript, entry by entry.

ghost use Rattle.std.specs.Prelude.{◌≡◌, ◌++◌, Bool, false, true, map, List, [], ◌∷◌, ℕ};
ghost use Rattle.std.specs.List.{AllByRecursion};
ghost use Rattle.zw_words.specs.declared.side.Side.TheVariants.{Host};
ghost use Rattle.zw_text.specs.declared.entry.Entry.{Entry};
ghost use Rattle.zw_text.specs.declared.entry.Entry.TheVariants.{Said, Refused, Written};
ghost use Rattle.zw_text.specs.declared.entry.Refusal.{Refusal};
ghost use Rattle.zw_text.specs.Transcript.{folded, line_of};
ghost use Rattle.host_heard.specs.declared.told.Told.{Told};
ghost use Rattle.law_transcript.specs.Restarts.{is_restart};
ghost use Rattle.law_transcript.specs.Units.{Carried};
ghost use Rattle.law_time.specs.Attempts.{anew, attempts_step, serving};
ghost use Rattle.law_time.specs.Heeds.{Heeds};
ghost use Rattle.law_time.specs.Judged.{is_acknowledgement};
ghost use Rattle.law_time.specs.Queue.{requests};
ghost use Rattle.law_time.specs.Requests.{is_new};
ghost use Rattle.proof_queue.specs.proof_attempts.Series.{IsOfNoLine};
ghost use Rattle.proof_queue.specs.proof_attempts.proof_requests.law_host.Heard.{heeds_alone};
ghost use Rattle.law_time.specs.Sessions.{is_last_command};
ghost use Rattle.proof_giving.specs.Tie.{anew_step};
ghost use Rattle.proof_giving.specs.Told.{GoesAlong, LeavesAttempts, attempts_so_far};

/// The attempts of several nodes by a transcript are those of each, which are of their node, and the requests are those of the queue. They grow by an entry
/// of no line as it says; the words of a line leave them, unless they start the host again and are not refused. So do entries that tell of none, and a unit
/// of the host that is no new request and acknowledges nothing; and along the notes of a host they begin anew where the command of the last session ends.
pub fn attempts_grow_by_entries()
    ensures each { (heeds : Heeds) (nodes : List ℕ) (past : List Entry) →
        (serving heeds nodes past).each ≡ map (λ n. attempts_so_far heeds n past) nodes }
    ensures requests { (heeds : Heeds) (nodes : List ℕ) (past : List Entry) → (serving heeds nodes past).requests ≡ requests heeds past }
    ensures node { (heeds : Heeds) (n : ℕ) (past : List Entry) → (attempts_so_far heeds n past).node ≡ n }
    ensures one { (taken : List Entry → Carried → List Told) (n : ℕ) (past : List Entry) (e : Entry) → IsOfNoLine e →
        attempts_so_far (heeds_alone taken) n (past ++ e ∷ [])
        ≡ attempts_step (heeds_alone taken) past (requests (heeds_alone taken) past) e [] (attempts_so_far (heeds_alone taken) n past) }
    ensures said { (taken : List Entry → Carried → List Told) (n : ℕ) (past : List Entry) (words : List ℕ) → is_restart (line_of (Said words)) ≡ false →
        attempts_so_far (heeds_alone taken) n (past ++ Said words ∷ []) ≡ attempts_so_far (heeds_alone taken) n past }
    ensures starts { (taken : List Entry → Carried → List Told) (n : ℕ) (past : List Entry) (words : List ℕ) → is_restart (line_of (Said words)) ≡ true →
        attempts_so_far (heeds_alone taken) n (past ++ Said words ∷ []) ≡ anew (attempts_so_far (heeds_alone taken) n past) }
    ensures in_vain { (taken : List Entry → Carried → List Told) (n : ℕ) (past : List Entry) (words : List ℕ) (refusal : Refusal) →
        attempts_so_far (heeds_alone taken) n (past ++ Said words ∷ (Refused refusal ∷ [])) ≡ attempts_so_far (heeds_alone taken) n past }
    ensures left { (taken : List Entry → Carried → List Told) (n : ℕ) (past told : List Entry) → AllByRecursion LeavesAttempts told →
        attempts_so_far (heeds_alone taken) n (past ++ told) ≡ attempts_so_far (heeds_alone taken) n past }
    ensures again { (taken : List Entry → Carried → List Told) (n : ℕ) (past : List Entry) (unit : List ℕ) → is_acknowledgement unit ≡ false →
        is_new (requests (heeds_alone taken) past).last unit ≡ false →
        attempts_so_far (heeds_alone taken) n (past ++ Written Host unit ∷ []) ≡ attempts_so_far (heeds_alone taken) n past }
    ensures along { (taken : List Entry → Carried → List Told) (n : ℕ) (past told : List Entry) (last : ℕ → Bool) → AllByRecursion GoesAlong told →
        ((command : ℕ) → is_last_command n past command ≡ last command) →
        attempts_so_far (heeds_alone taken) n (past ++ told) ≡ folded (anew_step last) (attempts_so_far (heeds_alone taken) n past) told }
{}
