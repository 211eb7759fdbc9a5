#![tactic(auto)]
// Writes the message for the sheet on standard input, or the line of its refusal.
use answers::programs::message_answer;
use answers::rooms::sheet_room;
use base::bytes::front;
use streams::{read_input, write_output};

// Nothing is written where the input can't be read. What stands behind the room for the sheet changes no answer.
fn main(rt: HostRuntime) {
    let mut sheet = sheet_room();
    let Ok(n) = read_input(&rt, &mut sheet) else {
        return;
    };
    let mut out = [0u8; 10000];
    let a = message_answer(front(&sheet, n), &mut out);
    let Ok(k) = a else {
        return;
    };
    write_output(&rt, front(&out, k));
}
