// Eight octets as one word, the least significant octet first: what code that touches every octet works on.
// Kept: std has no From between octets and words, and an own type of word with that conversion is no plainer than these
// three, which prove once that std's conversions are the definitions `little`, `little_octets` and `xored`.
#![tactic(auto)]

ghost use Rattle.std.specs.Prelude.{◌≡◌};
ghost use Rattle.octets.specs.Octets.{little, little_octets, xored};

// The word of eight octets.
pub fn from_octets(octets: &[u8; 8]) -> u64
    ensures { result ≡ little octets.now }
{
    u64::from_le_bytes(*octets)
}

// The eight octets of a word.
pub fn to_octets(word: u64) -> [u8; 8]
    ensures { result ≡ little_octets 8 word }
{
    word.to_le_bytes()
}

// The exclusive or of eight octets with those of a word, in one operation.
pub fn exclusive_or(octets: &[u8; 8], word: u64) -> [u8; 8]
    ensures { result ≡ xored octets.now (little_octets 8 word) }
{
    to_octets(from_octets(octets) ^ word)
}
