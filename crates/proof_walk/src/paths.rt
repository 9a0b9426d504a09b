//! Lines as paths.

ghost use Rattle.zw_text.specs.declared.line.Line.{Line};
ghost use Rattle.proof_device.specs.world_model.Lines.{IsLine};
ghost use Rattle.proof_device.specs.world_model.Prefixes.{LinePart};
ghost use Rattle.proof_walk.specs.Phases.{Between, Said_line};
ghost use Rattle.proof_walk.specs.Paths.{Begins, Leads};

/// The events of a whole line lead from its words to where no line runs; those of one that was cut short lead somewhere in it.
pub fn lines_are_paths()
    ensures whole { (line : Line) → Leads (Said_line line) (IsLine line) Between }
    ensures part { (line : Line) → Begins (Said_line line) (LinePart line) }
{}
