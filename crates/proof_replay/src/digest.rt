// The digests of sequents, by which they are sought.
ghost use Rattle.std.specs.Prelude.{◌≡◌, fold};
ghost use Rattle.proof_replay.specs.Digests.{mixed, mixed_all, low_part, digest_of_term, digest_of};

use term_core::{Sequent, Term, oper_number};

// A number mixed into a digest.
#[tactic(auto, unfolding(crate::specs::Digests::mixed))]
fn mixed(digest: u64, number: u64) -> u64
    ensures { result ≡ mixed digest number }
{
    let product = (digest ^ number).wrapping_mul(11_400_714_819_323_198_485);
    product ^ (product >> 32)
}

fn mixed_text(digest: u64, text: &[u8]) -> u64
    ensures { result ≡ mixed_all digest text.now }
{
    let mut digest = digest;
    for byte in text {
        digest = mixed(digest, u64::from(*byte));
    }
    digest
}

// A number below 2 ^ 64 that equal numbers share.
fn low_part(number: i128) -> u64
    ensures { result ≡ low_part number }
{
    (number.cast_unsigned() % (1 << 64)) as u64
}

fn digest_of_term(term: &Term) -> u64
    ensures { result ≡ digest_of_term term.now }
{
    match term {
        Term::Int(number) => mixed(1, low_part(*number)),
        Term::Truth(value) => mixed(2, u64::from(*value)),
        Term::Var(name) => mixed_text(3, name.as_bytes()),
        Term::Op(oper, terms) => {
            let (kind, held) = oper_number(*oper);
            let mut digest = mixed(mixed(4, u64::from(kind)), u64::from(held));
            for term in terms.as_slice() {
                digest = mixed(digest, digest_of_term(term));
            }
            digest
        }
        Term::All(name, low, high, body) => {
            let digest = mixed(mixed_text(5, name.as_bytes()), digest_of_term(low.get()));
            mixed(
                mixed(digest, digest_of_term(high.get())),
                digest_of_term(body.get()),
            )
        }
        Term::Some(name, low, high, body) => {
            let digest = mixed(mixed_text(6, name.as_bytes()), digest_of_term(low.get()));
            mixed(
                mixed(digest, digest_of_term(high.get())),
                digest_of_term(body.get()),
            )
        }
    }
}

/// A number that equal sequents share, and that others share seldom. It takes no memory, and is
/// linear in the sequent.
pub fn digest(sequent: &Sequent) -> u64
    ensures { result ≡ digest_of sequent.now }
{
    let mut digest = 7;
    for term in sequent.hyps.as_slice() {
        digest = mixed(digest, digest_of_term(term));
    }
    mixed(digest, digest_of_term(&sequent.goal))
}
