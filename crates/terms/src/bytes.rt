// The numbers in a job's bytes, and where a record ends.
ghost use Rattle.std.specs.Prelude.{◌≡◌, ◌^◌, ◌<◌, ◌≤◌, take, drop};
ghost use Rattle.theory.specs.Limit.{number_bytes, long_bytes, value_bytes, max_terms};
ghost use Rattle.theory.specs.Record.{little_endian, word, number_length};
ghost use Rattle.terms.specs.Framing.{frame_of};

use super::Term;

impl Term {
    // The number in the n bytes from `at` on, lowest byte first. A byte past the end is 0.
    fn bytes(s: &[u8], at: usize, n: usize) -> u64
        requires { n ≤ 8 }
        ensures value { result ≡ little_endian (take n (drop at s.now)) }
        ensures bound { result < 256 ^ n }
    {
        let rest = &s[at.min(s.len())..];
        let there = n.min(rest.len());
        let mut bytes = [0; 8];
        bytes[..there].copy_from_slice(&rest[..there]);
        u64::from_le_bytes(bytes)
    }

    // The number at `at`.
    pub fn number(s: &[u8], at: usize) -> u32
        ensures value { result ≡ word (drop at s.now) }
        ensures bound { result < 256 ^ number_bytes }
    {
        // Two bytes that are there are read at once, since every record is read by this.
        if s.len() < Term::NUMBER_BYTES || s.len() - Term::NUMBER_BYTES < at {
            return Term::bytes(s, at, Term::NUMBER_BYTES) as u32;
        }
        u32::from(u16::from_le_bytes([s[at], s[at + 1]]))
    }

    // The term's number at `at`, of so many bytes.
    pub fn place(s: &[u8], at: usize, bytes: usize) -> u32
        requires { bytes ≤ long_bytes }
        ensures { result ≡ little_endian (take bytes (drop at s.now)) }
    {
        if bytes == Term::NUMBER_BYTES {
            return Term::number(s, at);
        }
        // Four bytes that are there are read at once: an argument's in a long job.
        match s[at.min(s.len())..].first_chunk() {
            Some(&four) if bytes == Term::LONG_BYTES => u32::from_le_bytes(four),
            _ => Term::bytes(s, at, bytes) as u32,
        }
    }

    // The bytes of a term's number in a job: four where it begins with 02 00 67 00, the record of
    // kind 103 with no body, else two.
    #[tactic(auto, using(std::proofs::lemmas::Bool::Decides::nat_tests, crate::proofs::Numbers::not_long, crate::proofs::Numbers::is_long))]
    pub fn number_length(job: &[u8]) -> usize
        ensures { result ≡ number_length job.now }
    {
        let is_long = 2 * Term::NUMBER_BYTES <= job.len()
            && Term::number(job, 0) as usize == Term::NUMBER_BYTES
            && Term::number(job, Term::NUMBER_BYTES) == u32::from(Term::LONG_KIND);
        if is_long {
            Term::LONG_BYTES
        } else {
            Term::NUMBER_BYTES
        }
    }

    // The greatest number of terms, `True` and `False` counted, by the bytes of a term's number.
    pub fn max_terms(bytes: usize) -> usize
        ensures { result ≡ max_terms bytes }
    {
        if bytes == Term::LONG_BYTES {
            Term::LONG_MAX_TERMS
        } else {
            Term::MAX_TERMS
        }
    }

    // A constant's value at `at`.
    pub fn value(s: &[u8], at: usize) -> u64
        ensures { result ≡ little_endian (take value_bytes (drop at s.now)) }
    {
        match s[at.min(s.len())..].first_chunk() {
            Some(&bytes) => u64::from_le_bytes(bytes),
            None => Term::bytes(s, at, Term::VALUE_BYTES),
        }
    }

    // The bytes of the whole record at the place `at` of a job, if one stands there.
    #[tactic(auto, using(std::proofs::lemmas::Bool::Decides::nat_tests, crate::proofs::Reading::length_after), unfolding(crate::specs::Framing::frame_of))]
    pub fn frame(job: &[u8], at: usize) -> Option<usize>
        ensures { result ≡ frame_of (drop at job.now) }
    {
        if job.len() <= at {
            return None;
        }
        let left = job.len() - at;
        if left < Term::NUMBER_BYTES {
            return None;
        }
        let size = Term::number(job, at) as usize;
        if size < Term::NUMBER_BYTES || left - Term::NUMBER_BYTES < size {
            return None;
        }
        Some(Term::NUMBER_BYTES + size)
    }
}
