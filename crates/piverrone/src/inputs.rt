// What a text is sealed or opened with.
ghost use Rattle.std.specs.Prelude.{◌≡◌, take, drop};
ghost use Rattle.deoxys.specs.Entry.{Opening, SealAllows, opening};
ghost use Rattle.parcels.specs.Parcels.{tag_at, cipher_in, tag_in};
ghost use Rattle.pieces.specs.ByPieces.{BeginAllows};

use deoxys::{Opened, Sealed};
use pieces::Pieces;

// The suite, and what the files hold.
#[derive(Clone, Copy)]
pub struct Inputs<'a> {
    pub suite: u8,
    pub key: &'a [u8],
    pub nonce: &'a [u8],
    pub ad: &'a [u8],
}

impl Inputs<'_> {
    pub fn seal(self, text: &mut [u8]) -> Sealed
        ensures { SealAllows self.entry.suite self.entry.key.now self.entry.nonce.now self.entry.ad.now text.old
            (record { answer = result; buffer = text.new }) }
    {
        deoxys::seal(self.suite, self.key, self.nonce, self.ad, text)
    }

    // The tag that follows the ciphertext stays.
    pub fn open(self, text: &mut [u8]) -> Opened
        ensures { (◌≡◌ {A = Opening} (record { answer = result; buffer = take (tag_at text.old) text.new })
            (opening self.entry.suite self.entry.key.now self.entry.nonce.now self.entry.ad.now (cipher_in text.old) (tag_in text.old)))
            × (drop (tag_at text.old) text.new ≡ tag_in text.old) }
    {
        parcels::open(self.suite, self.key, self.nonce, self.ad, text)
    }

    pub fn begin(self) -> Pieces
        ensures { BeginAllows self.entry.suite self.entry.key.now self.entry.nonce.now self.entry.ad.now result }
    {
        pieces::begin(self.suite, self.key, self.nonce, self.ad)
    }
}
