ghost use Rattle.report_text.specs.Worked.{Worked};

/// The worked reports of `specs/Rows.antt`: what `report_of` gives of each history.
pub fn worked_compute()
    ensures { Worked }
{}
