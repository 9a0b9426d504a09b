//! What the laws of devices, of the table and of records say of worked transcripts.

ghost use Rattle.std.specs.Prelude.{◌≡◌, [], ◌∷◌, replicate, Some, None};
ghost use Rattle.zw_base.specs.declared.property.Name.TheVariants as names;
ghost use Rattle.host_orders.specs.Settings.{setting, config_settings};
ghost use Rattle.host_keep.specs.declared.final_status.FinalStatus.TheVariants as final;
ghost use Rattle.device_sim.specs.Event.DeviceEvent.{Wakes};
ghost use Rattle.zw_text.specs.declared.entry.Ended.TheVariants as endings;
ghost use Rattle.zw_text.specs.declared.entry.Entry.TheVariants.{TableEnd, TableNode, TableValue, Device};
ghost use Rattle.law_transcript.specs.Nodes.{always, listing_of};
ghost use Rattle.law_transcript.specs.Devices.{RanAsShown, after_events};
ghost use Rattle.law_transcript.specs.Headline.{IsAsMade};
ghost use Rattle.law_transcript.specs.Records.{ShowsNode};
ghost use Rattle.law_transcript.specs.Table.{table_of};
ghost use Rattle.law_transcript.specs.Worked.{
  plain_exchange,
  repeated_exchange,
  lossy_exchange,
  cancelled_order,
  restarted_host,
  sleeping_node,
  sealed_exchange,
  long_message,
  the_switch,
  the_sensor,
  the_lock,
  the_plug,
  network_key,
  with_journal,
  turned_on,
  turned_on_and_off,
  set_apart,
  secured,
  configured,
};
ghost use Rattle.law_transcript.specs.WorkedCases.{ended_so, joined_backwards, reported_backwards, switch_at};
ghost use Rattle.law_transcript.specs.WorkedWrongLines.{reported_twice, reported_before_restart};
ghost use Rattle.law_transcript.specs.WorkedDevices.{
  tick,
  one_heard,
  switch_events,
  repeated_events,
  lossy_events,
  restarted_events,
  cut_events,
  sensor_events,
  the_keyed_lock,
  lock_events,
  hand_events,
  switch_table,
  table_with,
  plain_kept,
  kept_ended,
  sensor_said,
  kept_sensor,
  kept_apart,
  kept_unknown,
  kept_waiting,
  kept_otherwise,
  kept_failed,
  kept_stranger,
  by_hand,
  one_tick,
  woken_apart,
  woken_joined,
  woken_silent,
  woken_then_ticked,
  worked_out,
  switch_at_work,
  sleeping_sensor,
  gone_asleep,
  not_by_hand,
  set_otherwise,
  heard_otherwise,
  set_elsewhere,
  woken_elsewhere,
  heard_elsewhere,
  unshown,
  kept_silent,
};

/// The devices of worked transcripts did what these show, and changed as the once-only law was shown them. A device that was woken before it
/// joined did what is shown too, though what it said then is on no air, and what it says when it has joined is; and so did one that was at work at entry.
pub fn worked_devices()
    ensures plain { RanAsShown 2 plain_exchange the_switch (after_events the_switch switch_events) }
    ensures turned_on { (after_events the_switch switch_events).journal ≡ turned_on }
    ensures sleeping { RanAsShown 5 sleeping_node the_sensor (after_events the_sensor sensor_events) }
    ensures set_apart { (after_events the_sensor sensor_events).journal ≡ set_apart }
    ensures repeated { RanAsShown 2 repeated_exchange the_switch (after_events the_switch repeated_events) }
    ensures lossy { RanAsShown 2 lossy_exchange the_switch (after_events the_switch lossy_events) }
    ensures cancelled { RanAsShown 2 cancelled_order the_switch (after_events the_switch switch_events) }
    ensures restarted { RanAsShown 2 restarted_host the_switch (after_events the_switch restarted_events) }
    ensures cut { RanAsShown 8 long_message the_plug (after_events the_plug cut_events) }
    ensures sealed { RanAsShown 4 sealed_exchange the_keyed_lock (after_events the_keyed_lock lock_events) }
    ensures secured { (after_events the_keyed_lock lock_events).journal ≡ secured }
    ensures by_hand { RanAsShown 2 by_hand the_switch (after_events the_switch hand_events) }
    ensures ticked { RanAsShown 2 one_tick the_switch (after_events the_switch (tick ∷ [])) }
    ensures apart { RanAsShown 5 woken_apart the_sensor (after_events the_sensor (Wakes ∷ [])) }
    ensures joined { RanAsShown 5 woken_joined the_sensor (after_events the_sensor (Wakes ∷ Wakes ∷ [])) }
    ensures working { RanAsShown 2 worked_out switch_at_work (after_events switch_at_work (tick ∷ [])) }
{}

/// Each of these breaks one part of the law of devices: a device is other than what came makes it, came to it what no line or frame brings, or one brings
/// otherwise, to another, or in another tick, did not live a tick, changed and that is not shown, or did not tell what it had to, also where it was woken
/// before it joined too, or was at work at entry.
pub fn rejected_devices()
    ensures asleep { RanAsShown 2 by_hand the_switch gone_asleep → ⊥ }
    ensures unasked { RanAsShown 2 not_by_hand the_switch (after_events the_switch hand_events) → ⊥ }
    ensures elsewhere { RanAsShown 2 set_elsewhere the_switch (after_events the_switch hand_events) → ⊥ }
    ensures set_otherwise { RanAsShown 2 set_otherwise the_switch (after_events the_switch hand_events) → ⊥ }
    ensures heard_otherwise { RanAsShown 2 heard_otherwise the_switch (after_events the_switch one_heard) → ⊥ }
    ensures woken_elsewhere { RanAsShown 5 woken_elsewhere sleeping_sensor (after_events sleeping_sensor (Wakes ∷ [])) → ⊥ }
    ensures unwoken { RanAsShown 5 [] sleeping_sensor (after_events sleeping_sensor (Wakes ∷ [])) → ⊥ }
    ensures late { RanAsShown 5 woken_then_ticked the_sensor (after_events the_sensor (tick ∷ Wakes ∷ [])) → ⊥ }
    ensures unheard { RanAsShown 2 [] the_switch (after_events the_switch one_heard) → ⊥ }
    ensures heard_elsewhere { RanAsShown 2 heard_elsewhere the_switch (after_events the_switch one_heard) → ⊥ }
    ensures unticked { RanAsShown 2 one_tick the_switch the_switch → ⊥ }
    ensures unshown { RanAsShown 2 unshown the_switch (after_events the_switch switch_events) → ⊥ }
    ensures silent { RanAsShown 2 kept_silent the_switch (after_events the_switch hand_events) → ⊥ }
    ensures silent_since { RanAsShown 5 woken_silent the_sensor (after_events the_sensor (Wakes ∷ Wakes ∷ [])) → ⊥ }
    ensures silent_at_work { RanAsShown 2 one_tick switch_at_work (after_events switch_at_work (tick ∷ [])) → ⊥ }
{}

/// Devices as their makers leave them.
pub fn worked_made()
    ensures switch { IsAsMade [] the_switch }
    ensures lock { IsAsMade network_key the_keyed_lock }
{}

/// Each of these breaks one part of what a device is as its maker leaves it: it is at the node of the controller or after the last, has changed, or has
/// another key.
pub fn rejected_made()
    ensures first { IsAsMade [] (switch_at 1) → ⊥ }
    ensures beyond { IsAsMade [] (switch_at 233) → ⊥ }
    ensures changed { IsAsMade [] (with_journal the_switch turned_on) → ⊥ }
    ensures key { IsAsMade network_key the_lock → ⊥ }
{}

/// The tables of worked transcripts, each with its one device; one with a value that was heard, and the same after a restart, one with a session that
/// confirmed nothing, two where nodes and values came in another order, and one with a device of each joined node.
pub fn worked_table()
    ensures plain { table_of (always (listing_of (the_switch ∷ []))) 2 plain_exchange (with_journal the_switch turned_on ∷ []) ≡ switch_table 2 (1 ∷ []) 255 }
    ensures repeated { table_of (always (listing_of (the_switch ∷ []))) 4 repeated_exchange (with_journal the_switch turned_on ∷ []) ≡
        switch_table 4 (1 ∷ []) 255 }
    ensures lossy { table_of (always (listing_of (the_switch ∷ []))) 10 lossy_exchange (with_journal the_switch turned_on_and_off ∷ []) ≡
        switch_table 10 (1 ∷ 2 ∷ []) 0 }
    ensures cancelled { table_of (always (listing_of (the_switch ∷ []))) 2 cancelled_order (with_journal the_switch turned_on ∷ []) ≡
        switch_table 2 (1 ∷ []) 255 }
    ensures restarted { table_of (always (listing_of (the_switch ∷ []))) 4 restarted_host (with_journal the_switch turned_on ∷ []) ≡
        switch_table 4 (1 ∷ []) 255 }
    ensures sleeping { table_of (always (listing_of (the_sensor ∷ []))) 9 sleeping_node (with_journal the_sensor set_apart ∷ []) ≡
        table_with 9 5 (setting 0 names.Interval 300 ∷ []) (setting 0 names.Interval 300 ∷ setting 0 names.Sensor 0 ∷ []) }
    ensures sealed { table_of (always (listing_of (the_keyed_lock ∷ []))) 113 sealed_exchange (with_journal the_keyed_lock secured ∷ []) ≡
        table_with 113 4 (setting 0 names.Lock 255 ∷ []) (setting 0 names.Lock 255 ∷ []) }
    ensures cut { table_of (always (listing_of (the_plug ∷ []))) 6 long_message (with_journal the_plug configured ∷ []) ≡
        table_with 6 8 (config_settings 0 0 (replicate 37 1)) (config_settings 0 0 (replicate 37 1)) }
    ensures heard { table_of (always (listing_of (the_switch ∷ []))) 0 reported_twice (the_switch ∷ []) ≡
        TableEnd 0 ∷ TableNode 2 [] ∷ TableValue 2 (record { end = 0; name = names.Switch }) None (Some 0) ∷ Device 2 (setting 0 names.Switch 0) ∷ [] }
    ensures restarted_since { table_of (always (listing_of (the_switch ∷ []))) 0 reported_before_restart (the_switch ∷ []) ≡
        TableEnd 0 ∷ TableNode 2 [] ∷ Device 2 (setting 0 names.Switch 0) ∷ [] }
    ensures unanswered { table_of (always (listing_of (the_switch ∷ []))) 0 (ended_so endings.Unanswered) (the_switch ∷ []) ≡
        TableEnd 0 ∷ TableNode 2 (1 ∷ []) ∷ Device 2 (setting 0 names.Switch 0) ∷ [] }
    ensures nodes_in_order { table_of (always (listing_of [])) 0 joined_backwards [] ≡ TableEnd 0 ∷ TableNode 2 [] ∷ TableNode 3 [] ∷ TableNode 5 [] ∷ [] }
    ensures values_in_order { table_of (always (listing_of [])) 0 reported_backwards [] ≡
        TableEnd 0 ∷ TableNode 2 [] ∷ TableValue 2 (record { end = 0; name = names.Switch }) None (Some 255)
        ∷ TableValue 2 (record { end = 0; name = names.Level }) None (Some 40) ∷ [] }
    ensures two { table_of (always (listing_of (the_sensor ∷ the_switch ∷ []))) 9 sleeping_node (with_journal the_sensor set_apart ∷ the_switch ∷ []) ≡
        TableEnd 9 ∷ TableNode 2 [] ∷ Device 2 (setting 0 names.Switch 0) ∷ TableNode 5 (1 ∷ [])
        ∷ TableValue 5 (record { end = 0; name = names.Interval }) (Some 300) None
        ∷ Device 5 (setting 0 names.Interval 300) ∷ Device 5 (setting 0 names.Sensor 0) ∷ [] }
{}

/// What the records of the plain exchange give of the node, and others where its session ended otherwise; and of a node that was interviewed.
pub fn worked_records()
    ensures plain { ShowsNode plain_exchange 2 plain_kept }
    ensures failed { ShowsNode (ended_so endings.Fail) 2 (kept_ended (Some final.Fail)) }
    ensures unsupported { ShowsNode (ended_so endings.NoSupport) 2 (kept_ended (Some final.NoSupport)) }
    ensures unanswered { ShowsNode (ended_so endings.Unanswered) 2 (kept_ended None) }
    ensures interviewed { ShowsNode sleeping_node 5 (kept_sensor (Some sensor_said)) }
{}

/// Each of these breaks one part of what records give of a node: whether it is joined and interviewed, as node 2 is, another that was or one that was
/// not, what waits, what its sessions carry, and how these ended.
pub fn rejected_records()
    ensures apart { ShowsNode plain_exchange 2 kept_apart → ⊥ }
    ensures unknown { ShowsNode plain_exchange 2 kept_unknown → ⊥ }
    ensures uninterviewed { ShowsNode sleeping_node 5 (kept_sensor None) → ⊥ }
    ensures stranger { ShowsNode plain_exchange 3 kept_stranger → ⊥ }
    ensures waiting { ShowsNode plain_exchange 2 kept_waiting → ⊥ }
    ensures otherwise { ShowsNode plain_exchange 2 kept_otherwise → ⊥ }
    ensures failed { ShowsNode plain_exchange 2 kept_failed → ⊥ }
{}
