// Reading and writing at the edges of the format.
use crate::reader::LineReader;
use crate::tag::Tag;
use crate::write::write;
use systems::outcome::Answer;

const DAMAGED: [&[u8]; 22] = [
    // nothing, and an empty line
    b"",
    b"\n",
    // other tags, and lower case
    b"LINE\n",
    b"PLAN\n",
    b"plnt\n",
    // a count that the tag does not allow
    b"PLNT     0\n",
    b"STEP\n",
    b"STEP     0     1\n",
    b"LEAD     0     0\n",
    // an empty column, a sign, and a tab
    b"STEP      \n",
    b"STEP    +1\n",
    b"STEP    -1\n",
    b"STEP\t    1\n",
    // carriage returns
    b"PLNT\r\n",
    b"STEP     1\r\n",
    // leading zeros, seven digits, and a column of five
    b"STEP    01\n",
    b"STEP000001\n",
    b"STEP1000000\n",
    b"STEP    1\n",
    // a trailing space, and no line feed
    b"PLNT \n",
    b"PLNT",
    b"STEP     1",
];

// What reading the bytes answers: a call with its line left out, no plainer otherwise.
fn answer(bytes: &[u8]) -> Answer {
    let mut reader = LineReader::new(bytes);
    let (answer, _) = reader.read();
    answer
}

#[test]
fn damaged_lines_are_refused(rt: HostRuntime) {
    for bytes in DAMAGED {
        assert_eq!(rt; answer(bytes), (1, 0));
    }
}

#[test]
fn a_refused_line_is_passed_by_skip(rt: HostRuntime) {
    let mut reader = LineReader::new(b"STEP    01\nSTEP     1\nVERD");
    let (refused, _) = reader.read();
    assert_eq!(rt; refused, (1, 0));
    assert_eq!(rt; reader.skip(), (0, 11));
    let (accepted, line) = reader.read();
    assert_eq!(rt; accepted, (0, 22));
    assert_eq!(rt; line.numbers(), [1].as_slice());
    let (last, _) = reader.next_line();
    assert_eq!(rt; last, (1, 0));
    assert!(rt; reader.at_end());
}

#[test]
fn the_largest_number_and_the_next(rt: HostRuntime) {
    let mut buffer = [7; 11];
    assert_eq!(rt; write(Tag::Step, &[1_000_000], &mut buffer), (19, 0));
    assert_eq!(rt; buffer, [7; 11]);
    assert_eq!(rt; write(Tag::Step, &[999_999], &mut buffer), (0, 11));
    assert_eq!(rt; &buffer, b"STEP999999\n");
    assert_eq!(rt; answer(&buffer), (0, 11));
}

#[test]
fn a_buffer_long_enough_and_one_short(rt: HostRuntime) {
    let mut short = [7; 16];
    assert_eq!(rt; write(Tag::Rsrc, &[2, 10], &mut short), (19, 17));
    assert_eq!(rt; short, [7; 16]);
    let mut buffer = [7; 18];
    assert_eq!(rt; write(Tag::Rsrc, &[2, 10], &mut buffer), (0, 17));
    assert_eq!(rt; &buffer, b"RSRC     2    10\n\x07");
}

#[test]
fn the_most_numbers_and_one_more(rt: HostRuntime) {
    let mut buffer = [0; 203];
    assert_eq!(rt; write(Tag::Offr, &[5; 32], &mut buffer), (0, 197));
    assert_eq!(rt; answer(&buffer), (0, 197));
    assert_eq!(rt; write(Tag::Offr, &[5; 33], &mut buffer), (0, 203));
    assert_eq!(rt; answer(&buffer), (1, 0));
}
