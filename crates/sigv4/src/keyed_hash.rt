ghost use Rattle.std.specs.Prelude.{◌≡◌, ◌≤◌, ◌++◌, length, IfOk};
ghost use Rattle.sha2.specs.Sha256.{sha256};
ghost use Rattle.sigv4.specs.Hmac.{padded, key_block, masked, hmac_of};

use sha2::{Digest, Sha256};
use std::alloc::Global;
use texts::{Bytes, OutOfMemory};

/// The bytes of a block of SHA-256 (FIPS 180-4, section 5.2.1).
const BLOCK: usize = 64;

/// The masks of the inner and of the outer hash (RFC 2104, section 2).
const INNER: u8 = 0x36;

const OUTER: u8 = 0x5c;

/// HMAC with SHA-256 (RFC 2104): the 32 bytes of the keyed hash of a text, for a key of any length.
pub fn hmac(alloc: Global, key: &[u8], text: &[u8]) -> Result<Bytes, OutOfMemory>
    ensures { IfOk result (λ hash. hash ≡ hmac_of key.now text.now) }
{
    Bytes::from_slice(alloc, keyed_hash(key, text).as_slice())
}

/// The same as an array, which takes no memory.
pub fn keyed_hash(key: &[u8], text: &[u8]) -> [u8; 32]
    ensures { result ≡ hmac_of key.now text.now }
{
    let block = key_block(key);
    let inner = hash_of_parts(masked(block, INNER).as_slice(), text);
    hash_of_parts(masked(block, OUTER).as_slice(), inner.as_slice())
}

/// The hash of two parts, one behind the other.
fn hash_of_parts(first: &[u8], second: &[u8]) -> [u8; 32]
    ensures { result ≡ sha256 (first.now ++ second.now) }
{
    let mut hasher = Sha256::new();
    hasher.update(first);
    hasher.update(second);
    hasher.finalize()
}

/// The key as a block; one that is longer is hashed first.
fn key_block(key: &[u8]) -> [u8; BLOCK]
    ensures { result ≡ key_block key.now }
{
    if key.len() > BLOCK {
        padded(Sha256::digest(key).as_slice())
    } else {
        padded(key)
    }
}

/// The key with zeros behind it.
fn padded(key: &[u8]) -> [u8; BLOCK]
    requires { length key.now ≤ 64 }
    ensures { result ≡ padded key.now }
{
    let mut block = [0; BLOCK];
    for at in 0..key.len() {
        block[at] = key[at];
    }
    block
}

/// Each byte of a block with the bits of the mask turned over.
fn masked(key: [u8; BLOCK], mask: u8) -> [u8; BLOCK]
    ensures { result ≡ masked mask key }
{
    let mut block = key;
    for at in 0..BLOCK {
        block[at] = block[at] ^ mask;
    }
    block
}
