// A sealed file: the ciphertext, and then the tag.

#![tactic(auto)]

ghost use Rattle.std.specs.Prelude.{◌≡◌, ◌-◌, take, drop};
ghost use Rattle.deoxys.specs.Entry.{Opening, opening};
ghost use Rattle.parcels.specs.Parcels.{tag_at, cipher_in, tag_in};

const TAG_BYTES: usize = 16;

// Where the tag starts in a file of so many bytes.
pub fn tag_at(bytes: usize) -> usize
    ensures { result ≡ bytes - 16 }
{
    bytes.saturating_sub(TAG_BYTES)
}

// Opens the ciphertext in place, with the tag that follows it and stays.
pub fn open(suite: u8, key: &[u8], nonce: &[u8], ad: &[u8], file: &mut [u8]) -> deoxys::Opened
    ensures { (◌≡◌ {A = Opening} (record { answer = result; buffer = take (tag_at file.old) file.new })
        (opening suite key.now nonce.now ad.now (cipher_in file.old) (tag_in file.old)))
        × (drop (tag_at file.old) file.new ≡ tag_in file.old) }
{
    let (cipher, tag) = file.split_at_mut(tag_at(file.len()));
    deoxys::open(suite, key, nonce, ad, cipher, tag)
}
