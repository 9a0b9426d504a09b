//! How the last request of a host stands, by its transcript.

ghost use Rattle.std.specs.Prelude.{◌≡◌, ◌+◌, ◌++◌, false, true, length, List, [], ◌∷◌, ℕ};
ghost use Rattle.std.specs.List.{AllByRecursion};
ghost use Rattle.std.specs.Str.{bytes_eq};
ghost use Rattle.serial_frame.specs.declared.unit.TheConstants.{ACK};
ghost use Rattle.zw_words.specs.declared.side.Side.TheVariants.{Host, Chip};
ghost use Rattle.zw_text.specs.declared.entry.Entry.{Entry};
ghost use Rattle.zw_text.specs.declared.entry.Entry.TheVariants.{Written};
ghost use Rattle.proof_waking.specs.law_time.Moments.{clock};
ghost use Rattle.proof_waking.specs.law_time.Judged.{acknowledged, frames_come, is_data, judged, last_of};
ghost use Rattle.proof_waking.specs.law_time.Requests.{Asked, is_answer, up_to_first};
ghost use Rattle.proof_requests.specs.Standing.{
  AreWords,
  IsAside,
  standing_of,
  with_answer,
  with_copy,
  with_entries,
  with_judging,
};

/// The words of the rules of a request's end are those over how it stands; and that changes with a copy, an answer of the chip and the acknowledgement of one
/// of its frames, and with nothing else.
pub fn requests_stand_by_entries()
    ensures words { (a : Asked) (now : ℕ) → AreWords a now }
    ensures aside { (a : Asked) (told : List Entry) → is_data a.frame ≡ true → AllByRecursion IsAside told →
        standing_of (with_entries a told) ≡ standing_of a }
    ensures copied { (a : Asked) (unit : List ℕ) → is_data a.frame ≡ true → bytes_eq unit a.frame ≡ true →
        standing_of (with_entries a (Written Host unit ∷ []))
        ≡ with_copy (standing_of a) (clock ((up_to_first a ++ a.following) ++ Written Host unit ∷ [])) }
    ensures answered { (a : Asked) (unit : List ℕ) → is_data a.frame ≡ true → is_answer unit ≡ true →
        standing_of (with_entries a (Written Chip unit ∷ []))
        ≡ with_answer (standing_of a)
        (record { unit = unit; tick = clock (up_to_first a ++ a.following); frames = length (frames_come (up_to_first a ++ a.following)) }) }
    ensures judged { (a : Asked) (text : List ℕ) → is_data a.frame ≡ true →
        last_of (judged ((up_to_first a ++ a.following) ++ Written Host (ACK ∷ []) ∷ [])) ≡ text ∷ [] →
        standing_of (with_entries a (Written Host (ACK ∷ []) ∷ []))
        ≡ with_judging (standing_of a)
        (record { unit = text; tick = clock (up_to_first a ++ a.following); place = acknowledged (up_to_first a ++ a.following) + 1 }) }
{}
