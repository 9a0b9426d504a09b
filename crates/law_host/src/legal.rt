//! What the laws of a legal host and of a legal run say of worked transcripts, and of others with one thing wrong.

ghost use Rattle.law_time.specs.Heeds.{heeds_of};
ghost use Rattle.std.specs.Prelude.{[], ◌∷◌, false, ℕ, Bool, List, map, Option, None, Some, true};
ghost use Rattle.law_time.specs.law_transcript.device_stack.State.{State};
ghost use Rattle.host_keep.specs.RecordText.{record_text};
ghost use Rattle.law_host.specs.Heard.{heard_by_host};
ghost use Rattle.law_host.specs.HostLegal.{IsHostLegal, IsLegalAlone};
ghost use Rattle.law_host.specs.Legal.{IsLegal};
ghost use Rattle.law_host.specs.Notes.{first_start};
ghost use Rattle.law_host.specs.Starting.{IsLegalFrom, StartsFrom};
ghost use Rattle.law_host.specs.Worked.{after_exchange, life_records, loss_untold, next_session, plain_heard, session_again, session_resumed};
ghost use Rattle.law_time.specs.WrongWaits.{begun_silently};
ghost use Rattle.law_time.specs.law_transcript.Devices.{after_events};
ghost use Rattle.law_time.specs.law_transcript.Worked.{plain_exchange, refused_lines, the_switch};
ghost use Rattle.law_time.specs.law_transcript.WorkedDevices.{plain_records, switch_events};
ghost use Rattle.law_time.specs.law_wire.WorkedRecords.{begun_records, ordered_otherwise};
ghost use Rattle.law_time.specs.law_wire.WorkedWrong.{answered_nothing};

use law_time::{
    rejected_links, rejected_records, worked_arrivals, worked_bringing, worked_cancels,
    worked_collisions, worked_devices, worked_doings, worked_forgetting, worked_frames,
    worked_landings, worked_links, worked_marks, worked_payloads, worked_pipes, worked_records,
    worked_repeats, worked_routes, worked_service, worked_showing, worked_stores, worked_units,
};
use law_transcript::{worked_answers, worked_fates, worked_losses};

/// A host that refuses lines, each by its rule, is legal over what it hears of them, and alone it is over what it hears of the plain exchange.
pub fn worked_legal()
    ensures refused { IsHostLegal [] (heeds_of (the_switch ∷ [])) first_start true (heard_by_host refused_lines) None }
    ensures plain { IsLegalAlone [] first_start true plain_heard None }
{}

/// Where a session has begun and the run ends before its message, it is not.
pub fn rejected_legal()
    ensures { IsHostLegal [] (heeds_of (the_switch ∷ [])) first_start true begun_silently None → ⊥ }
{}

/// The plain exchange is legal, with its device as the message leaves it and with its records.
pub fn worked_run()
    ensures { IsLegal [] (the_switch ∷ []) (after_events the_switch switch_events ∷ []) true plain_exchange (Some (map record_text plain_records)) }
{
    worked_answers();
    worked_devices();
    worked_doings();
    worked_frames();
    worked_fates();
    worked_losses();
    worked_units();
    worked_bringing();
    worked_payloads();
    worked_cancels();
    worked_stores();
    worked_arrivals();
    worked_landings();
    worked_repeats();
    worked_forgetting();
    worked_routes();
    worked_links();
    worked_service();
    worked_marks();
    worked_collisions();
    worked_pipes();
    worked_records();
    worked_showing();
    worked_legal();
}

/// With the records of another order it is not, no transcript is in which the chip answers a frame that never came, and no whole run that ends with a
/// unit of which it is to be told that it was lost, or with a session that has begun and whose message was not sent.
pub fn rejected_run()
    ensures records { (after : List State) → IsLegal [] (the_switch ∷ []) after true plain_exchange (Some (map record_text ordered_otherwise)) → ⊥ }
    ensures line { (after : List State) → IsLegal [] (the_switch ∷ []) after false answered_nothing None → ⊥ }
    ensures end { (after : List State) → IsLegal [] (the_switch ∷ []) after true loss_untold None → ⊥ }
    ensures host { (after : List State) → IsLegal [] (the_switch ∷ []) after true begun_silently None → ⊥ }
{
    rejected_records();
    rejected_links();
}

/// Where there are no records a host starts with nothing.
pub fn worked_start()
    ensures { StartsFrom [] first_start }
{}

/// From the records of a session that has not ended it does not start as after the plain exchange, and from those of that exchange it does not
/// where the old host goes on.
pub fn rejected_start()
    ensures records { StartsFrom (map record_text begun_records) after_exchange → ⊥ }
    ensures running { StartsFrom (map record_text plain_records) after_exchange → ⊥ }
{
    rejected_records();
}

/// From the records of a first life a host goes on: the command that waits begins the next session of its node.
pub fn worked_life()
    ensures { IsLegalFrom [] (map record_text life_records) true next_session None }
{}

/// From those of a session that has not ended it sends the message of that session again, and a copy of it as its own link counts ticks.
pub fn worked_open_life()
    ensures { IsLegalFrom [] (map record_text begun_records) true session_resumed None }
{}

/// However it starts from either, it does not begin the first session again.
pub fn rejected_life()
    ensures open { (key : List ℕ) (whole : Bool) (told : Option (List (List ℕ))) →
        IsLegalFrom key (map record_text begun_records) whole session_again told → ⊥ }
    ensures ended { (key : List ℕ) (whole : Bool) (told : Option (List (List ℕ))) →
        IsLegalFrom key (map record_text life_records) whole session_again told → ⊥ }
{}
