//! What lines ask for without a session.

ghost use Rattle.std.specs.Prelude.{◌≡◌, ℕ, false, List, [], ◌∷◌, ◌++◌};
ghost use Rattle.zw_base.specs.declared.order.Word.{Word};
ghost use Rattle.zw_text.specs.declared.line.Line.TheVariants.{Get, Send};
ghost use Rattle.zw_text.specs.declared.entry.Entry.{Entry};
ghost use Rattle.zw_text.specs.declared.entry.Entry.TheVariants.{Said};
ghost use Rattle.zw_text.specs.Transcript.{line_of};
ghost use Rattle.host_orders.specs.Errands.{get_text, send_text};
ghost use Rattle.host_orders.specs.Refusals.{classes_of};
ghost use Rattle.host_model.specs.State.{HostState, node_of};
ghost use Rattle.host_model.specs.May.{known_of};
ghost use Rattle.proof_air.specs.law_transcript.Payloads.{IsAskedFor};
ghost use Rattle.proof_air.specs.law_transcript.Restarts.{begins_refused};
ghost use Rattle.proof_air.specs.law_transcript.Units.{Carried};
ghost use Rattle.proof_spoken.specs.Said.{KnowsListing};

/// What lines have asked for stays asked for, whatever stands next, but for a refusal of the last of them; and directly after the words of a line that
/// asks for a Set or a Get the text has been asked for that the host makes of it, where that knows of the node what the transcript shows.
pub fn lines_ask_for_what_is_queued()
    ensures stays { (listing : List Entry → ℕ → List ℕ) (past told : List Entry) (one : Carried) → begins_refused told ≡ false →
        IsAskedFor listing past one → IsAskedFor listing (past ++ told) one }
    ensures send { (listing : List Entry → ℕ → List ℕ) (past : List Entry) (words : List ℕ) (h : HostState) (node : ℕ) (word : Word) →
        KnowsListing listing past h →
        line_of (Said words) ≡ Send node word ∷ [] →
        IsAskedFor listing (past ++ Said words ∷ [])
        (record { node = node; payload = send_text (classes_of (known_of (node_of h node))) word }) }
    ensures get { (listing : List Entry → ℕ → List ℕ) (past : List Entry) (words : List ℕ) (h : HostState) (node end : ℕ) → KnowsListing listing past h →
        line_of (Said words) ≡ Get node end ∷ [] →
        IsAskedFor listing (past ++ Said words ∷ [])
        (record { node = node; payload = get_text (classes_of (known_of (node_of h node))) end }) }
{}
