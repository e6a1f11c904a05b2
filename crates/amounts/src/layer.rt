// The layers that refuse.

// Which layer a refusal comes from. The programs' and the writer's own refusals count as the reader's.
#[derive(Clone, Copy, Debug, PartialEq, Eq)]
pub enum Layer {
    Reader,
    Unit,
    Book,
    Rule,
}
