//! Frames that are held for a resumption.

use replay_buffer::Replay;
use std::alloc::Global;
use std::process::Abort;

const EIGHT: [u8; 8] = [1, 2, 3, 4, 5, 6, 7, 8];

// A buffer that kept two frames of eight bytes.
#[tactic(auto, unfolding(position::specs::Boundaries::pos_by))]
fn kept_twice(rt: &impl Abort, alloc: Global, hold: u64) -> Replay {
    let mut replay = Replay::new(alloc, hold).expect(rt, "there is memory");
    replay.reserve(2, 16).expect(rt, "there is memory");
    replay.keep(&EIGHT);
    replay.keep(&EIGHT);
    replay
}

// Where the oldest frame that is held starts, and where the newest ended.
fn held(replay: &Replay) -> (u64, u64) {
    (replay.first(), replay.end())
}

#[test]
fn forgets_a_frame_where_two_pass_the_limit(rt: HostRuntime) {
    let replay = kept_twice(&rt, rt.alloc(), 10);
    let held = held(&replay);
    let is_whole = replay.is_boundary(8) && replay.is_boundary(16);
    let is_cut = replay.is_boundary(0) || replay.is_boundary(12);
    drop(replay);
    assert!(rt; held == (8, 16) && is_whole && !is_cut);
}

// That the framed bytes from 8 on are those of one frame of eight bytes.
fn copies_the_second(rt: &impl Abort, replay: &Replay) {
    assert!(rt; replay.readable(8) && replay.framed_len(8) == 11);
    let mut buffer = [9; 3];
    assert!(rt; replay.copy(8, 0, &mut buffer) == 3 && buffer == [0, 0, 8]);
    let mut rest = [9; 12];
    assert!(rt; replay.copy(8, 2, &mut rest) == 9);
    assert!(rt; rest == [8, 1, 2, 3, 4, 5, 6, 7, 8, 9, 9, 9]);
}

#[test]
fn copies_framed_bytes(rt: HostRuntime) {
    let replay = kept_twice(&rt, rt.alloc(), 10);
    copies_the_second(&rt, &replay);
    drop(replay);
}

#[test]
fn holds_exactly_the_limit_and_releases_whole_frames(rt: HostRuntime) {
    let mut replay = kept_twice(&rt, rt.alloc(), 16);
    let both = held(&replay);
    replay.release(9);
    let second = held(&replay);
    replay.release(100);
    let none = held(&replay);
    drop(replay);
    assert!(rt; both == (0, 16) && second == (8, 16) && none == (16, 16));
}

#[test]
fn holds_nothing_under_limit_zero(rt: HostRuntime) {
    let replay = kept_twice(&rt, rt.alloc(), 0);
    let held = held(&replay);
    let is_end = replay.is_boundary(16) && replay.readable(16) && replay.framed_len(16) == 0;
    drop(replay);
    assert!(rt; held == (16, 16) && is_end);
}

// A buffer that kept two frames of eight bytes after its start was pinned.
fn pinned(rt: &impl Abort, alloc: Global, hold: u64) -> Replay {
    let mut replay = Replay::new(alloc, hold).expect(rt, "there is memory");
    replay.reserve(2, 16).expect(rt, "there is memory");
    assert!(rt; replay.readable(0));
    replay.pin(0);
    replay.keep(&EIGHT);
    replay.keep(&EIGHT);
    replay
}

// That both frames are read until the pin is gone, and those from `first` on are held.
fn reads_pinned(rt: &impl Abort, replay: &mut Replay, first: u64) {
    assert!(rt; held(replay) == (first, 16) && replay.floor() == 0);
    assert!(rt; replay.readable(0) && !replay.is_boundary(0) && replay.framed_len(0) == 22);
    let place = replay.place_after(0, 13);
    replay.unpin();
    assert!(rt; place.position == 8 && place.skip == 2);
    assert!(rt; replay.floor() == first && !replay.readable(0));
}

#[test]
fn reads_a_pinned_frame_that_was_forgotten(rt: HostRuntime) {
    for (hold, first) in [(0, 16), (8, 8)] {
        let mut replay = pinned(&rt, rt.alloc(), hold);
        reads_pinned(&rt, &mut replay, first);
        drop(replay);
    }
}

// Keeps a frame of its own length and bytes, and reads it where it is held.
fn keeps_and_reads(rt: &impl Abort, replay: &mut Replay, number: u32) {
    let length = 6 + (number % 40) as usize;
    let bytes = [(number % 251) as u8; 64];
    let frame = &bytes[..length];
    replay.reserve(1, length).expect(rt, "there is memory");
    let from = replay.end();
    assert!(rt; from < 1_000_000);
    replay.keep(frame);
    assert!(rt; replay.end() == from + length as u64);
    let mut buffer = [0; 64];
    if replay.readable(from) {
        assert!(rt; replay.copy(from, 0, &mut buffer) == 3 + length);
        assert!(rt; buffer[2] == length as u8 && &buffer[3..3 + length] == frame);
    }
}

#[test]
fn reads_across_blocks(rt: HostRuntime) {
    let mut replay = Replay::new(rt.alloc(), 24).expect(&rt, "there is memory");
    for number in 0..2000u32 {
        keeps_and_reads(&rt, &mut replay, number);
    }
    drop(replay);
}

/// A draw from a boundary on, without the first so many bytes, into room for so many, and what is drawn.
type Draw = (u64, u64, usize, &'static [u8]);

/// Draws of frames of 6, 16, 17 and 6 bytes.
const DRAWS: &[Draw] = &[
    (0, 0, 4, &[0, 0, 6, 0xa1]),
    (0, 8, 5, &[0xa1, 0, 0, 16, 0xb2]),
    (0, 28, 3, &[0, 0, 17]),
    (0, 57, 3, &[]),
    (6, 0, 2, &[0, 0]),
    (6, 2, 2, &[16, 0xb2]),
    (6, 18, 6, &[0xb2, 0, 0, 17, 0xc3, 0xc3]),
    (22, 0, 5, &[0, 0, 17, 0xc3, 0xc3]),
    (22, 19, 9, &[0xc3, 0, 0, 6, 0xd4, 0xd4, 0xd4, 0xd4, 0xd4]),
    (39, 0, 12, &[0, 0, 6, 0xd4, 0xd4, 0xd4, 0xd4, 0xd4, 0xd4]),
    (39, 7, 6, &[0xd4, 0xd4]),
    (45, 0, 6, &[]),
];

// Keeps a frame of at most so many bytes as one of these.
fn keeps(rt: &impl Abort, replay: &mut Replay, frame: &[u8]) {
    let count = frame.len();
    assert!(rt; 6 <= count && count <= 1_000_000 && replay.end() < 1_000_000);
    replay.reserve(1, count).expect(rt, "there is memory");
    replay.keep(frame);
}

// That a row is drawn.
fn draws(rt: &impl Abort, replay: &Replay, row: Draw) {
    let (from, skip, room, want) = row;
    assert!(rt; replay.readable(from));
    assert!(rt; skip <= replay.framed_len(from) && room <= 12);
    let mut buffer = [9; 12];
    let count = replay.copy(from, skip, &mut buffer[..room]);
    assert!(rt; count == want.len());
    assert!(rt; &buffer[..count] == want);
    assert!(rt; buffer[count..].iter().all(|byte| *byte == 9));
}

#[test]
fn draws_short_frames_after_their_length_fields(rt: HostRuntime) {
    let mut replay = Replay::new(rt.alloc(), 1_000).expect(&rt, "there is memory");
    keeps(&rt, &mut replay, &[0xa1; 6]);
    keeps(&rt, &mut replay, &[0xb2; 16]);
    keeps(&rt, &mut replay, &[0xc3; 17]);
    keeps(&rt, &mut replay, &[0xd4; 6]);
    for row in DRAWS {
        draws(&rt, &replay, *row);
    }
    drop(replay);
}

// Frames on both sides of the length from which on three bytes of it don't begin with a 0.
fn draws_long(rt: &impl Abort, alloc: Global, frame: &[u8], field: [u8; 3]) {
    let mut replay = Replay::new(alloc, 100_000).expect(rt, "there is memory");
    keeps(rt, &mut replay, frame);
    let mut buffer = [9; 4];
    let end = 2 + frame.len() as u64;
    assert!(rt; replay.readable(0));
    assert!(rt; replay.framed_len(0) == end + 1);
    assert!(rt; replay.copy(0, 0, &mut buffer) == 4);
    assert!(rt; buffer == [field[0], field[1], field[2], 0x5a]);
    assert!(rt; replay.copy(0, end, &mut buffer) == 1);
    assert!(rt; buffer == [0x5a, field[1], field[2], 0x5a]);
    drop(replay);
}

#[test]
fn draws_long_frames_after_their_length_fields(rt: HostRuntime) {
    let mut frame = Vec::new(rt.alloc());
    frame.resize(65_535, 0x5a).expect(&rt, "there is memory");
    draws_long(&rt, rt.alloc(), &frame, [0, 255, 255]);
    frame.push(0x5a).expect(&rt, "there is memory");
    draws_long(&rt, rt.alloc(), &frame, [1, 0, 0]);
}
