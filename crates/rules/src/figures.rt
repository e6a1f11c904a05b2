// Worked figures, as promises about the definitions that the rules' contracts use.
ghost use Rattle.std.specs.Prelude.{◌≡◌, length};
ghost use Rattle.rules.specs.Figures.{figures, AllFiguresHold};

// How many figures are listed, each worked by hand; each is what the definitions give.
pub fn worked_figures() -> usize
    ensures count { result ≡ length figures }
    ensures hold { AllFiguresHold }
{
    13
}
