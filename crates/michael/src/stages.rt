// Michael in stages. A keyed stage takes the addresses and nothing else; the addressed stage that this gives takes the
// message in portions, and ends in the code. Each step uses its stage up, and a stage that is not ended is given up.
ghost use Rattle.std.specs.Prelude.{◌≡◌, ◌+◌, ◌%◌, ◌<◌, [], ◌∷◌, ◌++◌, length};
ghost use Rattle.octets.specs.Octets.{Octets};
ghost use Rattle.michael.specs.Michael.{key_state, heading as heading_octets, words, padded, ends_in, code_octets};
ghost use Rattle.michael.specs.Stages.{held, comes_to};

use crate::blocks::State;
use frame::Heading;

// The octets that wait until a word of the message is whole.
#[derive(Clone, Copy)]
enum Waiting {
    Nothing,
    One(u8),
    Two(u8, u8),
    Three(u8, u8, u8),
}

impl Waiting {
    // How many octets complete the word that is begun.
    fn lacks(self) -> usize
        ensures whole { (length (held self) + result) % 4 ≡ 0 }
        ensures few { result < 4 }
    {
        match self {
            Waiting::Nothing => 0,
            Waiting::One(_) => 3,
            Waiting::Two(_, _) => 2,
            Waiting::Three(_, _, _) => 1,
        }
    }

    // The word before the last, which is 0, once the padding follows what waits.
    fn padded_word(self) -> u32
        ensures { words (padded (held self)) ≡ result ∷ 0 ∷ [] }
    {
        match self {
            Waiting::Nothing => u32::from_le_bytes([0x5a, 0, 0, 0]),
            Waiting::One(a) => u32::from_le_bytes([a, 0x5a, 0, 0]),
            Waiting::Two(a, b) => u32::from_le_bytes([a, b, 0x5a, 0]),
            Waiting::Three(a, b, c) => u32::from_le_bytes([a, b, c, 0x5a]),
        }
    }
}

// Michael with its key, and with no octet taken.
pub struct Keyed {
    state: State,
}

// Michael once the addresses are taken, and perhaps a part of the message.
pub struct Addressed {
    state: State,
    waiting: Waiting,
}

impl Keyed {
    // The stage that a key of eight octets begins.
    pub fn new(key: &[u8]) -> Keyed
        requires { length key.now ≡ 8 }
        ensures { result.state ≡ key_state key.now }
    {
        Keyed {
            state: State::of_key(key),
        }
    }

    // Takes the addresses and the priority, four words.
    pub fn address(self, heading: &Heading) -> Addressed
        ensures { (rest : Octets) → comes_to result rest ≡ ends_in self.state (heading_octets heading.now.destination heading.now.source heading.now.priority ++ rest) }
    {
        let Keyed { state } = self;
        let [a, b, c, d, e, f] = heading.destination.octets;
        let [g, h, i, j, k, l] = heading.source.octets;
        Addressed::over(state.take_words(&[
            [a, b, c, d],
            [e, f, g, h],
            [i, j, k, l],
            [heading.priority, 0, 0, 0],
        ]))
    }

    // Lets the stage go, with no code.
    // Kept: beside that of the other stage. A trait of stages would be no plainer: each takes its own fields apart.
    pub fn give_up(self) {
        let Keyed { state: _ } = self;
    }
}

impl Addressed {
    // A stage at which no octet waits.
    pub(crate) fn over(state: State) -> Addressed
        ensures { (rest : Octets) → comes_to result rest ≡ ends_in state rest }
    {
        Addressed {
            state,
            waiting: Waiting::Nothing,
        }
    }

    // Takes one octet.
    fn octet(self, octet: u8) -> Addressed
        ensures { (rest : Octets) → comes_to result rest ≡ comes_to self (octet ∷ rest) }
    {
        let Addressed { state, waiting } = self;
        match waiting {
            Waiting::Nothing => Addressed {
                state,
                waiting: Waiting::One(octet),
            },
            Waiting::One(a) => Addressed {
                state,
                waiting: Waiting::Two(a, octet),
            },
            Waiting::Two(a, b) => Addressed {
                state,
                waiting: Waiting::Three(a, b, octet),
            },
            Waiting::Three(a, b, c) => {
                Addressed::over(state.take(u32::from_le_bytes([a, b, c, octet])))
            }
        }
    }

    // Takes octets one by one.
    fn few(self, octets: &[u8]) -> Addressed
        ensures { (rest : Octets) → comes_to result rest ≡ comes_to self (octets.now ++ rest) }
    {
        let mut stage = self;
        for octet in octets {
            stage = stage.octet(*octet);
        }
        stage
    }

    // Takes octets by words where no octet waits, and else one by one.
    fn many(self, octets: &[u8]) -> Addressed
        ensures { (rest : Octets) → comes_to result rest ≡ comes_to self (octets.now ++ rest) }
    {
        let Addressed { state, waiting } = self;
        match waiting {
            Waiting::Nothing => {
                let (words, ragged) = octets.as_chunks::<4>();
                Addressed::over(state.take_words(words)).few(ragged)
            }
            _ => Addressed { state, waiting }.few(octets),
        }
    }

    // Takes the next octets of the message, as many as there are.
    pub fn portion(self, octets: &[u8]) -> Addressed
        ensures { (rest : Octets) → comes_to result rest ≡ comes_to self (octets.now ++ rest) }
    {
        let (first, others) = octets.split_at(self.waiting.lacks().min(octets.len()));
        self.few(first).many(others)
    }

    // The code of what was taken.
    pub fn end(self) -> [u8; 8]
        ensures { result ≡ code_octets (comes_to self []) }
    {
        let Addressed { state, waiting } = self;
        state.take(waiting.padded_word()).take(0).octets()
    }

    // Lets the stage go, with no code.
    pub fn give_up(self) {
        let Addressed {
            state: _,
            waiting: _,
        } = self;
    }
}
