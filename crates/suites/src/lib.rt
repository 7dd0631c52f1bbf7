// The suites and the refusals that depend on lengths alone.

#![tactic(auto)]

ghost use Rattle.std.specs.Prelude.{◌≡◌};
ghost use Rattle.suites.specs.Numbers.{number_of, answer_number};
ghost use Rattle.suites.specs.Suites.{key_length, nonce_length, refusal};

// The most bytes of data, and of a text.
pub const LIMIT: usize = 1048576;

// What an entry point refuses by lengths alone, in the order of the checks.
#[derive(Clone, Copy, Debug, PartialEq, Eq)]
pub enum Refused {
    Suite,
    Key,
    Nonce,
    Data,
    Text,
}

impl Refused {
    // The number of document 01.
    pub fn number(self) -> u8
        ensures { result ≡ number_of self }
    {
        match self {
            Refused::Suite => 1,
            Refused::Key => 2,
            Refused::Nonce => 3,
            Refused::Data => 4,
            Refused::Text => 5,
        }
    }
}

// The length of a suite's key, and 0 for what is no suite: the definition's, by which a record's reader takes the nonce of any suite's byte, so no
// Option. A suite stays a number: document 01 names "a suite number and plain functions".
pub fn key_length(suite: u8) -> usize
    ensures { result ≡ key_length suite }
{
    match suite {
        1 | 3 => 16,
        2 | 4 => 32,
        _ => 0,
    }
}

// The length of a suite's nonce, and 0 for what is no suite, likewise.
pub fn nonce_length(suite: u8) -> usize
    ensures { result ≡ nonce_length suite }
{
    match suite {
        1 | 2 => 8,
        3 | 4 => 15,
        _ => 0,
    }
}

// The first refusal that applies.
#[tactic(auto, unfolding(crate::specs::Suites::refusal))]
pub fn refusal(suite: u8, key: usize, nonce: usize, ad: usize, text: usize) -> Result<(), Refused>
    ensures { answer_number result ≡ refusal suite key nonce ad text }
{
    if suite < 1 || 4 < suite {
        return Err(Refused::Suite);
    }
    if key != key_length(suite) {
        return Err(Refused::Key);
    }
    if nonce != nonce_length(suite) {
        return Err(Refused::Nonce);
    }
    if LIMIT < ad {
        return Err(Refused::Data);
    }
    if LIMIT < text {
        return Err(Refused::Text);
    }
    Ok(())
}
