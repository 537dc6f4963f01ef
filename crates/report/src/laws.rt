// What the text of a figure tells its reader. The function does nothing: its contract is the law, so
// that the crate is not proved without the law's proof.
ghost use Rattle.report.specs.Reading.{FiguresReadBack};

// Every figure of fewer than forty digits stands in plain base ten: its digits read back as the figure,
// and none of them is a leading zero.
pub fn figures_read_back()
    ensures { FiguresReadBack }
{}
