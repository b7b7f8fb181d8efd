ghost use Rattle.std.specs.Prelude.{◌≡◌};
ghost use Rattle.survey_file.specs.Pieces.{put_answer, put_bytes};

use subject::refusal::Refusal;

/// Lays a piece of text or of a file into bytes, at a place; the place behind it.
///
/// All other bytes stay. Refused with 18 where the piece does not fit, and all bytes stay.
pub fn put(out: &mut [u8], at: usize, piece: &[u8]) -> Result<usize, Refusal>
    ensures answer { result ≡ put_answer out.old at piece.now }
    ensures after { out.new ≡ put_bytes out.old at piece.now }
{
    if at > out.len() || out.len() - at < piece.len() {
        return Err(Refusal::NoRoom);
    }
    let end = at + piece.len();
    out[at..end].copy_from_slice(piece);
    Ok(end)
}
