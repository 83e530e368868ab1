use super::part::Part;

// An array: its inside is what stands between its brackets.
#[derive(Clone, Copy)]
pub struct Array<I> {
    pub part: Part<I>,
}
