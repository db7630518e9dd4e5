// Numbers that lead to places.
ghost use Rattle.std.specs.Prelude.{◌≡◌, [], IfOk, IfSome, nat_eq};
ghost use Rattle.std.specs.Cmp.Lexicographic.{pointwise};
ghost use Rattle.rng_model.specs.plain.PlaceHashes.{place_hash};
ghost use Rattle.rng_model.specs.views.NumbersViews.{numbers_in};

use crate::fault::OutOfMemory;
use std::alloc::Global;

/// Numbers that lead to a place, the outermost first. They take a byte each where all are less than 256, since a deep
/// place has many.
#[derive(Drop)]
pub(crate) enum Numbers {
    Bytes(Vec<u8>),
    Words(Vec<usize>),
}

/// Numbers that lead to a place, and their hash.
#[derive(Drop)]
pub(crate) struct HashedNumbers {
    pub(crate) numbers: Numbers,
    pub(crate) hash: u64,
    pub ghost hashed: { hash ≡ place_hash (numbers_in numbers) },
}

/// The number with which the hash of Fowler, Noll and Vo in 64 bits begins.
pub(crate) const BASIS: u64 = 14_695_981_039_346_656_037;

/// The factor of the hash of Fowler, Noll and Vo in 64 bits.
const FACTOR: u64 = 1_099_511_628_211;

/// Returns these numbers as bytes, if each is less than 256.
fn bytes_of(alloc: Global, numbers: &[usize]) -> Result<Option<Vec<u8>>, OutOfMemory>
    ensures { IfOk result (λ o. IfSome o (λ bytes. bytes.items ≡ numbers.now)) }
{
    let mut bytes = Vec::with_capacity(alloc, numbers.len())?;
    'numbers: for number in numbers {
        if *number >= 256 {
            return Ok(None);
        }
        bytes.push(*number as u8)?;
    }
    Ok(Some(bytes))
}

/// Returns bytes as numbers, with room for more.
fn words_of(alloc: Global, bytes: &[u8]) -> Result<Vec<usize>, OutOfMemory>
    ensures { IfOk result (λ words. words.items ≡ bytes.now) }
{
    let mut words = Vec::with_capacity(alloc, bytes.len())?;
    'bytes: for byte in bytes {
        words.push(*byte as usize)?;
    }
    Ok(words)
}

/// Returns the hash of numbers that are bytes.
#[tactic(auto, unfolding(crate::specs::plain::PlaceHashes::place_hash))]
fn hash_of_bytes(bytes: &[u8]) -> u64
    ensures { result ≡ place_hash bytes.now }
{
    let mut sum: u64 = BASIS;
    'bytes: for byte in bytes {
        sum = (sum ^ (*byte as u64)).wrapping_mul(FACTOR);
    }
    sum
}

/// Returns the hash of numbers.
#[tactic(auto, unfolding(crate::specs::plain::PlaceHashes::place_hash))]
fn hash_of_words(words: &[usize]) -> u64
    ensures { result ≡ place_hash words.now }
{
    let mut sum: u64 = BASIS;
    'words: for word in words {
        sum = (sum ^ (*word as u64)).wrapping_mul(FACTOR);
    }
    sum
}

/// Returns whether bytes are the same numbers as these.
fn are_same(bytes: &[u8], words: &[usize]) -> bool
    ensures { result ≡ pointwise nat_eq bytes.now words.now }
{
    if bytes.len() != words.len() {
        return false;
    }
    for (i, byte) in bytes.iter().enumerate() {
        if *byte as usize != words[i] {
            return false;
        }
    }
    true
}

impl Numbers {
    /// Creates a copy of these numbers.
    fn of(alloc: Global, numbers: &[usize]) -> Result<Self, OutOfMemory>
        ensures { IfOk result (λ copy. numbers_in copy ≡ numbers.now) }
    {
        match bytes_of(alloc, numbers)? {
            Some(bytes) => Ok(Numbers::Bytes(bytes)),
            None => Ok(Numbers::Words(Vec::from_slice(alloc, numbers)?)),
        }
    }

    /// Returns a copy of the numbers.
    pub(crate) fn to_words(&self, alloc: Global) -> Result<Vec<usize>, OutOfMemory>
        ensures { IfOk result (λ words. words.items ≡ numbers_in self.now) }
    {
        match self {
            Numbers::Bytes(bytes) => words_of(alloc, bytes.as_slice()),
            Numbers::Words(words) => Ok(Vec::from_slice(alloc, words.as_slice())?),
        }
    }

    /// Returns whether there are none.
    pub(crate) fn is_empty(&self) -> bool
        ensures { result ≡ pointwise nat_eq (numbers_in self.now) [] }
    {
        match self {
            Numbers::Bytes(bytes) => bytes.is_empty(),
            Numbers::Words(words) => words.is_empty(),
        }
    }

    /// Returns the hash of the numbers.
    fn hash(&self) -> u64
        ensures { result ≡ place_hash (numbers_in self.now) }
    {
        match self {
            Numbers::Bytes(bytes) => hash_of_bytes(bytes.as_slice()),
            Numbers::Words(words) => hash_of_words(words.as_slice()),
        }
    }

    /// Returns whether these are the same numbers.
    pub(crate) fn is_same(&self, other: &Self) -> bool
        ensures { result ≡ pointwise nat_eq (numbers_in self.now) (numbers_in other.now) }
    {
        match (self, other) {
            (Numbers::Bytes(own), Numbers::Bytes(others)) => own.as_slice() == others.as_slice(),
            (Numbers::Words(own), Numbers::Words(others)) => own.as_slice() == others.as_slice(),
            (Numbers::Bytes(bytes), Numbers::Words(words))
            | (Numbers::Words(words), Numbers::Bytes(bytes)) => {
                are_same(bytes.as_slice(), words.as_slice())
            }
        }
    }
}

impl HashedNumbers {
    /// Creates a copy of these numbers, with their hash.
    pub(crate) fn of(alloc: Global, numbers: &[usize]) -> Result<Self, OutOfMemory>
        ensures { IfOk result (λ copy. numbers_in copy.numbers ≡ numbers.now) }
    {
        let numbers = Numbers::of(alloc, numbers)?;
        let hash = numbers.hash();
        Ok(HashedNumbers { numbers, hash })
    }
}
