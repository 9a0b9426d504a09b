//! What the law of records says of worked transcripts and records, and of others with one thing wrong.

ghost use Rattle.std.specs.Prelude.{[], ◌∷◌, map};
ghost use Rattle.law_transcript.specs.host_keep.RecordText.{record_text};
ghost use Rattle.law_transcript.specs.Records.{KeepsRecords};
ghost use Rattle.law_transcript.specs.Worked.{
  plain_exchange,
  repeated_exchange,
  lossy_exchange,
  cancelled_order,
  restarted_host,
  sleeping_node,
  sealed_exchange,
  long_message,
};
ghost use Rattle.law_transcript.specs.WorkedDevices.{plain_records};
ghost use Rattle.law_wire.specs.WorkedRecords.{
  still_begun,
  begun_records,
  taken_back,
  cancelling_records,
  lossy_records,
  cancelled_records,
  sleeping_records,
  sealed_records,
  cut_records,
  ordered_otherwise,
  spent_ungiven,
  taken_back_late,
  given_up,
};

/// The records of the worked transcripts, of a session that has not ended and of a command that is taken back give what is shown, of all nodes.
pub fn worked_records()
    ensures plain { KeepsRecords plain_exchange (map record_text plain_records) }
    ensures restarted { KeepsRecords restarted_host (map record_text plain_records) }
    ensures twice { KeepsRecords repeated_exchange (map record_text plain_records) }
    ensures lossy { KeepsRecords lossy_exchange (map record_text lossy_records) }
    ensures cancelled { KeepsRecords cancelled_order (map record_text cancelled_records) }
    ensures sleeping { KeepsRecords sleeping_node (map record_text sleeping_records) }
    ensures sealed { KeepsRecords sealed_exchange (map record_text sealed_records) }
    ensures cut { KeepsRecords long_message (map record_text cut_records) }
    ensures begun { KeepsRecords still_begun (map record_text begun_records) }
    ensures taken_back { KeepsRecords taken_back (map record_text cancelling_records) }
{}

/// Each of these breaks one part of the law: the last record is missing, another order is kept, a record may not stand where it does, a text is of no
/// record, a command is shown as taken back that is not kept so, and one is kept so that is not shown so.
pub fn rejected_records()
    ensures lacking { KeepsRecords plain_exchange (map record_text begun_records) → ⊥ }
    ensures ordered { KeepsRecords plain_exchange (map record_text ordered_otherwise) → ⊥ }
    ensures illegal { KeepsRecords plain_exchange (map record_text spent_ungiven) → ⊥ }
    ensures unread { KeepsRecords plain_exchange ([] ∷ map record_text plain_records) → ⊥ }
    ensures unkept { KeepsRecords taken_back_late (map record_text begun_records) → ⊥ }
    ensures unshown { KeepsRecords given_up (map record_text cancelling_records) → ⊥ }
{}
