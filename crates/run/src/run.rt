// The cells are those that the caller gives, so that nothing here allocates. They hold the tree of joins over the entries'
// summaries; cell 0 keeps the old summary while a trial is open.
#[derive(Drop)]
pub struct Run<'a, K> {
    cells: &'a mut [K],
    length: usize,
    number: u16,
    trial: Option<usize>,
}

mod appending;
mod asking;
mod editing;
mod keeping;
mod loading_blocks;
mod opening;
mod taking_back;
mod trying;
