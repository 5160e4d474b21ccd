// Reads a bundle of streams from standard input, runs each on a new box, and prints all lines and which rules refused how often.
#![tactic(auto)]

use bundle::{note, play, split, times};
use decoder::decode;
use records::Rule;
use std::io;
use std::io::Read;
use stream::{Answer, Call, Transcript};

// Prints how many streams and calls there were, and how often each rule refused.
fn print_summary(rt: &impl Print, streams: usize, outcomes: &[Option<u8>]) -> io::Result<()> {
    let calls = outcomes.len();
    println!(rt; "streams {streams}")?;
    println!(rt; "calls {calls}")?;
    for rule in 1..=Rule::RoomForImage as u8 {
        let refused = times(outcomes, Some(rule));
        println!(rt; "rule {rule} {refused}")?;
    }
    Ok(())
}

fn main(rt: HostRuntime) -> io::Result<()> {
    let mut input = Vec::new(rt.alloc());
    rt.stdin().read_to_end(&mut input)?;
    let streams = split(rt.alloc(), &input)?;
    // Room at once, as no call has fewer than eight bytes: grown step by step, outcomes stand twice in memory at each step.
    let mut outcomes = Vec::with_capacity(rt.alloc(), input.len() / 8)?;
    for (count, stream) in streams.items.iter().enumerate() {
        let setting = stream.setting;
        let calls = decode::<Call>(rt.alloc(), stream.calls)?;
        let mut answers = vec![in rt.alloc(); Answer::Number(0); calls.items.len()]?;
        play(setting, &calls.items, &mut answers);
        let transcript = Transcript {
            answers: &answers,
            ended: calls.ended(),
        };
        println!(rt; "stream {count} {setting}")?;
        for line in transcript.lines() {
            rt.println(line)?;
        }
        note(&mut outcomes, &answers)?;
    }
    if !streams.ended() {
        rt.println("broken")?;
    }
    print_summary(&rt, streams.items.len(), &outcomes)
}
