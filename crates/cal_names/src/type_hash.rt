//! The hash of a type's name: what tells the stored types of two storages apart in their paths. It is the SHA-1 of the
//! name (RFC 3174) in base64url without padding (RFC 4648, section 5).
ghost use Rattle.std.specs.Prelude.{◌≡◌, ◌*◌, ◌-◌, ◌/◌, ◌%◌, ◌^◌, ◌<◌, slice_index};
ghost use Rattle.std.specs.Int.Digits.{number_from_digits};
ghost use Rattle.cal_names.specs.TypeHash.{type_hash_of, hash_letters};

use crate::type_name::TypeName;
use sha1::Sha1;

const HASH_LEN: usize = 20;

const TEXT_LEN: usize = 27;

const LETTERS: [u8; 64] = *b"ABCDEFGHIJKLMNOPQRSTUVWXYZabcdefghijklmnopqrstuvwxyz0123456789-_";

/// The SHA-1 of a type's name as URL-safe base64 without padding.
pub fn type_hash(name: &TypeName) -> [u8; TEXT_LEN]
    ensures letters { result ≡ type_hash_of name.now }
{
    let hash = Sha1::digest(name.as_bytes());
    let mut text = [0; TEXT_LEN];
    for index in 0..TEXT_LEN {
        text[index] = letter(sextet(&hash, index));
    }
    text
}

/// Six bits of the hash and two zero bits after it, from bit `6 * index` on, where bit 0 is the
/// highest.
fn sextet(hash: &[u8; HASH_LEN], index: usize) -> u8
    requires { index < 27 }
    ensures { result ≡ number_from_digits 256 hash.now * 4 / 2 ^ (6 * (26 - index)) % 64 }
{
    let (byte, bit) = (6 * index / 8, 6 * index % 8);
    let high = u16::from(hash[byte]);
    let low = u16::from(hash.get(byte + 1).copied().unwrap_or(0));
    ((high * 256 + low >> (10 - bit)) % 64) as u8
}

fn letter(sextet: u8) -> u8
    requires { sextet < 64 }
    ensures { result ≡ slice_index hash_letters sextet }
{
    LETTERS[sextet as usize]
}
