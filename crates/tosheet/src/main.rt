#![tactic(auto)]
// Writes the sheet for the type and the message on standard input, or the line of the refusal.
use answers::programs::sheet_answer;
use answers::rooms::input_room;
use base::bytes::front;
use streams::{read_input, write_output};

// Nothing is written where the input can't be read. What stands behind the room for the type and the message changes no answer.
fn main(rt: HostRuntime) {
    let mut input = input_room();
    let Ok(n) = read_input(&rt, &mut input) else {
        return;
    };
    let mut out = [0u8; 10000];
    let a = sheet_answer(front(&input, n), &mut out);
    let Ok(k) = a else {
        return;
    };
    write_output(&rt, front(&out, k));
}
