/// What a state word says of its page and of the page's cell.
#[derive(Clone, Copy, Debug, PartialEq, Eq)]
pub enum CellState {
    /// The cell is empty.
    Empty,
    /// The page is home.
    Home,
    /// The pass with this number builds the page.
    BuiltBy(u64),
    /// The pass with this number holds the page.
    HeldBy(u64),
}

impl CellState {
    ghost use Rattle.std.specs.Prelude.{◌≡◌};
    ghost use Rattle.cell_steps.specs.States.{word_of};

    // The state that this state word says.
    pub(crate) fn of(word: u64) -> CellState
        ensures { word_of result ≡ word }
    {
        match word {
            0 => CellState::Empty,
            1 => CellState::Home,
            _ if word % 2 == 0 => CellState::BuiltBy(word / 2 - 1),
            _ => CellState::HeldBy(word / 2 - 1),
        }
    }
}
