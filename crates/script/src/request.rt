// What a session is asked to do. A request that wants a receipt takes the one that is out.
#[derive(Clone, Copy, Debug, PartialEq, Eq, Hash)]
pub enum Request {
    Settle,
    // A literal, by its number.
    Choose(i32),
    // To a level.
    Back(u32),
    // To a level.
    BackFromClash(u32),
    Close,
}
