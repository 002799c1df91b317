use station::Refusal;

// What a granted trial gives: it bears the number of its run. It can be neither copied nor let go, so every way out of
// the code that holds one has to settle it, by `keep` or `take_back`, and once.
pub struct Ticket {
    pub(crate) number: u16,
}

// A settlement that was refused hands the ticket back.
pub struct Unsettled {
    pub refusal: Refusal,
    pub ticket: Ticket,
}
