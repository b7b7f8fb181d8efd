// The house on four places, as its file.
use survey::draft::Draft;
use survey_file::writer::write;

pub const HOUSE: [u8; 88] = [
    1, 0, 2, 0, 1, 2, 0, 0, 2, 0, 4, 0, 0, 7, 208, 2, 0, 4, 0, 0, 1, 244, 2, 0, 0, 3, 0, 12, 0, 0,
    0, 1, 85, 1, 0, 10, 0, 0, 1, 44, 3, 0, 12, 0, 1, 0, 3, 85, 1, 0, 10, 0, 0, 1, 44, 3, 0, 12, 0,
    1, 0, 2, 85, 7, 0, 5, 0, 0, 0, 200, 3, 0, 12, 0, 2, 0, 1, 85, 7, 0, 5, 0, 0, 0, 200, 4, 0, 0,
];

// Where the field begins that has the byte of a number, or that would follow so many bytes.
pub fn field_start(count: usize) -> usize {
    [5, 8, 15, 22, 25, 40, 55, 70, 85]
        .into_iter()
        .filter(|next| *next <= count)
        .last()
        .unwrap_or(0)
}

// Whether what is in the draft is written as these 88 bytes.
pub fn is_written_as(draft: Draft, file: &[u8; 88]) -> bool {
    let mut out = [0u8; 128];
    write(&draft.seal(), &mut out) == Ok(88) && out.starts_with(file)
}
