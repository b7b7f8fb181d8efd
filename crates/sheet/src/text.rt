use arrayvec::ArrayVec;
use itoa::Buffer;
use subject::refusal::Refusal;
use survey_file::bytes::put;

/// One line of text, of at most 128 bytes, which grows piece by piece and takes no memory.
// It is no `ArrayString` with `write!`: no clause says that this is `Ok` where there is room.
#[derive(Drop)]
pub struct TextLine {
    text: ArrayVec<u8, 128>,
}

impl TextLine {
    ghost use Rattle.std.specs.Prelude.{◌≡◌, [], ◌∷◌, length, decimal};
    ghost use Rattle.survey_file.specs.Pieces.{put_answer, put_bytes};
    ghost use Rattle.sheet.specs.Lines.{text_of, text_and};

    // A line without text.
    pub(crate) fn new() -> TextLine
        ensures { text_of result ≡ [] }
    {
        TextLine {
            text: ArrayVec::new(),
        }
    }

    // How many bytes the text has.
    pub(crate) fn len(&self) -> usize
        ensures { result ≡ length (text_of self.now) }
    {
        self.text.len()
    }

    // The bytes of the text.
    pub(crate) fn as_bytes(&self) -> &[u8]
        ensures { result.now ≡ text_of self.now }
    {
        self.text.as_slice()
    }

    // The text grows by a piece, where there is room for it.
    pub(crate) fn push(&mut self, piece: &[u8])
        ensures { text_of self.new ≡ text_and (text_of self.old) piece.now }
    {
        let _ = self.text.try_extend_from_slice(piece);
    }

    // The text grows by the digits of a number, where there is room for them.
    pub(crate) fn push_number(&mut self, n: u64)
        ensures { text_of self.new ≡ text_and (text_of self.old) (decimal n) }
    {
        let mut digits = Buffer::new();
        self.push(digits.format(n).as_bytes());
    }

    // The text grows by the digits of a number and a byte behind them, where there is room.
    pub(crate) fn push_number_then(&mut self, n: u64, behind: u8)
        ensures { text_of self.new ≡ text_and (text_and (text_of self.old) (decimal n)) (behind ∷ []) }
    {
        self.push_number(n);
        self.push(&[behind]);
    }

    // The text, laid into bytes at a place.
    pub(crate) fn put_into(&self, out: &mut [u8], at: usize) -> Result<usize, Refusal>
        ensures answer { result ≡ put_answer out.old at (text_of self.now) }
        ensures after { out.new ≡ put_bytes out.old at (text_of self.now) }
    {
        put(out, at, self.text.as_slice())
    }
}
