/// The numbers of a single end in a round of a phase, or in weighing, where the round is 0. A host that is written in
/// another language keeps them and makes a state of them again at each call. In this language a state is moved by its
/// calls, so that none is used twice; numbers can be copied, and are not protected so.
// Round 0 and no enum, n and f as they come: a host keeps plain numbers, in a language that need not have enums.
#[derive(Clone, Copy)]
pub struct Numbers {
    pub site: u8,
    pub bit: bool,
    pub phase: usize,
    pub round: usize,
    pub n: u8,
    pub f: u8,
}
