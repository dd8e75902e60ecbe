// What a row's hash is fed with.
ghost use Rattle.std.specs.Prelude.{◌≡◌, ◌++◌, if◌then◌else◌, fold};
ghost use Rattle.style.specs.Bytes.{style_bytes};
ghost use Rattle.style.specs.Styles.{is_plain};
ghost use Rattle.layout.specs.RowLaw.{HashLaw, EqualWrites};

use style::StyleSheet;
use width::{RowHash, feed_all};

/// The hash with one piece more: its bytes, and its style in nine bytes. A row's hash is fed with what the row carries,
/// and with the newline that ends it.
#[tactic(auto, using(crate::proofs::RowLaws::hash_law, crate::proofs::RowLaws::folded_append))]
pub fn feed_piece<R: RowHash>(hash: u64, piece: &[u8], style: StyleSheet) -> u64
    ensures value { result ≡ fold R.RowHash.step hash (piece.now ++ style_bytes style) }
    ensures law { HashLaw }
{
    feed_all::<R>(feed_all::<R>(hash, piece), &style.to_bytes())
}

/// The hash of a row that is opened under a style. Equal texts under equal styles give equal rows, hashes included.
#[tactic(auto, using(crate::proofs::RowLaws::equal_writes))]
pub fn open_hash<R: RowHash>(style: StyleSheet) -> u64
    ensures value { result ≡ (if is_plain style then R.RowHash.seed else fold R.RowHash.step R.RowHash.seed (style_bytes style)) }
    ensures law { EqualWrites }
{
    if style.is_empty() {
        R::begin()
    } else {
        feed_all::<R>(R::begin(), &style.to_bytes())
    }
}
