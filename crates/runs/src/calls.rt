use literals::Refusal;

// What a session may do next.
#[derive(Clone, Copy, Debug, PartialEq, Eq, Hash)]
pub enum State {
    // A literal was chosen, or the session was just opened: what follows from it is not on the trail yet.
    Unsettled,
    // No rule is broken, and none forces a literal.
    Settled,
    // What stands breaks this rule.
    Clashed(usize),
    // The session was closed.
    Shut,
}

// A rule that was found broken, and the level at which it was.
#[derive(Clone, Copy, Debug, PartialEq, Eq, Hash)]
pub struct Clash {
    pub rule: usize,
    pub level: u8,
}

// What a session is asked to do. A call that takes a receipt has the clash that it stands for.
#[derive(Clone, Copy, Debug, PartialEq, Eq, Hash)]
pub enum Call {
    Settle,
    // A literal, by its number.
    Choose(i32),
    // To a level.
    Back(u32),
    // The receipt's clash, and the level to go back to.
    BackFromClash(Clash, u32),
    // The receipt's clash.
    Close(Clash),
}

// What a call that is done answers.
#[derive(Clone, Copy, Debug, PartialEq, Eq, Hash)]
pub enum Reply {
    Done,
    // By how many literals the trail grew.
    Grown(u8),
    // With the letter of the shelf that holds the broken rule.
    Clash(Clash, char),
}

// What a call answers: its reply, or why it was refused.
pub type Answer = Result<Reply, Refusal>;
