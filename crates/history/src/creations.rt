// A task to be created while the kernel is furnished: any words.
#[derive(Clone, Copy, Debug, PartialEq, Eq)]
pub struct Creation {
    pub task: u32,
    pub priority: u32,
}
