// The exports for C and Rust: each calls the function of its name in `desk` and says the same. A slice passes as a
// pointer and a length.
#![tactic(auto)]

ghost use Rattle.std.specs.Prelude.{◌≡◌};
ghost use Rattle.types.specs.Form.{form_of};
ghost use Rattle.message.specs.Calls.{span_of, amount_of, day_of};
ghost use Rattle.desk.specs.Answer.{span_word, amount_word, day_word};
ghost use Rattle.desk.specs.Exports.{ReadWord, WrittenWord, CheckWord, MessageWord, SheetWord};

#[unsafe(no_mangle)]
pub extern "C" fn desk_read_text(sign: u32, bank: &[u8], out: &mut [u8]) -> u64
    ensures { ReadWord sign bank.now out.old result out.new }
{
    desk::desk_read_text(sign, bank, out)
}

#[unsafe(no_mangle)]
pub extern "C" fn desk_write_text(sign: u32, text: &[u8], out: &mut [u8]) -> u64
    ensures { WrittenWord sign text.now out.old result out.new }
{
    desk::desk_write_text(sign, text, out)
}

// The check of a message: the list of its fields.
#[unsafe(no_mangle)]
pub extern "C" fn desk_check(kind: u32, message: &[u8], list: &mut [u32]) -> u64
    ensures { CheckWord (form_of kind) message.now list.old result list.new }
{
    desk::desk_check(kind, message, list)
}

// Where the content of a place stands.
#[unsafe(no_mangle)]
pub extern "C" fn desk_content(kind: u32, message: &[u8], place: u32) -> u64
    ensures { result ≡ span_word (span_of (form_of kind) message.now place) }
{
    desk::desk_content(kind, message, place)
}

#[unsafe(no_mangle)]
pub extern "C" fn desk_kopecks(kind: u32, message: &[u8]) -> u64
    ensures { result ≡ amount_word (amount_of (form_of kind) message.now) }
{
    desk::desk_kopecks(kind, message)
}

#[unsafe(no_mangle)]
pub extern "C" fn desk_date(kind: u32, message: &[u8]) -> u64
    ensures { result ≡ day_word (day_of (form_of kind) message.now) }
{
    desk::desk_date(kind, message)
}

// A clerk's sheet as a message.
#[unsafe(no_mangle)]
pub extern "C" fn desk_to_message(sheet: &[u8], out: &mut [u8]) -> u64
    ensures { MessageWord sheet.now out.old result out.new }
{
    desk::desk_to_message(sheet, out)
}

// A message as a clerk's sheet.
#[unsafe(no_mangle)]
pub extern "C" fn desk_to_sheet(kind: u32, message: &[u8], out: &mut [u8]) -> u64
    ensures { SheetWord (form_of kind) message.now out.old result out.new }
{
    desk::desk_to_sheet(kind, message, out)
}
