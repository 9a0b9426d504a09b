//! What holds of every transcript of events, and of every text. Each law is the contract of a function without a body.

ghost use Rattle.std.specs.Prelude.{◌≡◌, ℕ, ◌+◌, [], ◌∷◌, ◌++◌, List, All, Some, length, slice_get};
ghost use Rattle.supervision.specs.Session.{wire_id};
ghost use Rattle.event_flow.specs.State.{FlowState, all_silent, node_of};
ghost use Rattle.event_flow.specs.Steps.{after, entries};
ghost use Rattle.event_flow.specs.Flow.{Flow, IsAnswer, IsNextEvent, NamesNode, after_all, run};
ghost use Rattle.event_flow.specs.Line.{EventText};
ghost use Rattle.event_flow.specs.Entry.{event_text};
ghost use Rattle.event_flow.specs.Fits.{EventFits};
ghost use Rattle.event_flow.specs.declared.entry.EventEntry.{EventEntry as AnyEntry};
ghost use Rattle.event_flow.specs.declared.frame.Frame.{Frame as AnyFrame};
ghost use Rattle.event_flow.specs.declared.frame.Notice.{Notice as AnyNotice};
ghost use Rattle.event_flow.specs.declared.line.EventLine.{EventLine as AnyLine};

use crate::{EventEntry, EventLine};
use supervision::SUCCESS;

/// The events of each node are taken once and in order, and become known after that, whatever is delivered.
pub fn events_flow()
    ensures { (lines : List AnyLine) → All NamesNode lines → Flow (run all_silent lines) }
{}

/// A frame that arrives while it is fresh does what it was sent for.
pub fn what_is_next_is_heard()
    // The next event is taken and answered.
    ensures taken { (lines : List AnyLine) → All NamesNode lines → (number : ℕ) (frame : AnyFrame) (notice : AnyNotice) →
        IsNextEvent (after_all all_silent lines) number frame notice →
        entries (after_all all_silent lines) (EventLine.Deliver number)
        ≡ EventEntry.Taken frame.node notice.kind notice.level ∷ EventEntry.Frame
        (length (after_all all_silent lines).frames + 1) 1 frame.node (108 ∷ 2 ∷ wire_id frame.session ∷ SUCCESS ∷ 0 ∷ []) ∷ [] }
    // It is the one that comes next in the queue of its device.
    ensures queued { (lines : List AnyLine) → All NamesNode lines → (number : ℕ) (frame : AnyFrame) (notice : AnyNotice) →
        IsNextEvent (after_all all_silent lines) number frame notice →
        slice_get (node_of (after_all all_silent lines).nodes frame.node).queued
        (length (node_of (after_all all_silent lines).nodes frame.node).taken) ≡ Some notice }
    // The answer to the open session makes its event known.
    ensures known { (lines : List AnyLine) → All NamesNode lines → (number : ℕ) (frame : AnyFrame) →
        IsAnswer (after_all all_silent lines) number frame →
        (rest : List AnyEntry) × (entries (after_all all_silent lines) (EventLine.Deliver number) ≡ EventEntry.Known frame.node frame.session ∷ rest) }
{}

/// A transcript and the world after it, with one line more.
pub fn transcripts_grow()
    ensures world { (w : FlowState) (lines : List AnyLine) (line : AnyLine) → after_all w (lines ++ line ∷ []) ≡ after (after_all w lines) line }
    ensures transcript { (w : FlowState) (lines : List AnyLine) (line : AnyLine) →
        run w (lines ++ line ∷ []) ≡ run w lines ++ record { line = line; entries = entries (after_all w lines) line } ∷ [] }
{}

/// No text is that of two lines.
pub fn one_event_line_each()
    ensures { (text : List ℕ) (first second : AnyLine) → EventText text first → EventText text second → first ≡ second }
{}

/// No two entries have one text, where their numbers are in the ranges of their types.
pub fn one_event_text_each()
    ensures { (first second : AnyEntry) → EventFits first → EventFits second → event_text first ≡ event_text second → first ≡ second }
{}
