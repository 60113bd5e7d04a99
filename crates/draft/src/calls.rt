// Calls on a draft, and their replies, as values.
use lookup::counts::Tally;
use query::window::Window;
use refusal::Refusal;

// A call with its arguments, and the buffer that it is lent.
#[derive(Drop)]
pub enum Call<K> {
    Put(K),
    Take(K),
    Ask(K),
    Pick(Window<K>),
    // the points that are passed over, and the buffer
    List(Window<K>, usize, Vec<K>),
    Count(Window<K>),
    Tally,
    Outline(Vec<u8>),
}

// What a call answers, and the buffer that it gives back.
#[derive(Drop)]
pub enum Reply<K> {
    Put(Result<(), Refusal>),
    Take(Result<(), Refusal>),
    Ask(Result<bool, Refusal>),
    Pick(Result<Option<K>, Refusal>),
    List(Result<(usize, usize), Refusal>, Vec<K>),
    Count(Result<usize, Refusal>),
    Tally(Result<Tally, Refusal>),
    Outline(Result<usize, Refusal>, Vec<u8>),
}

// Why a run was not made.
#[derive(Clone, Copy, PartialEq, Eq, Debug)]
pub enum Halt {
    // less room for replies than there are calls
    Room,
    // no draft could be begun
    Refused(Refusal),
}
