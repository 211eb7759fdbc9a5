// The texts of `why` in English, made by .ci/numbers from docs/NUMBERS.md.
use crate::texts::{Meaning, Text};

// What a number means and what to do; there are no others.
pub(crate) fn meaning_of(number: usize) -> Option<Meaning> {
    match number {
        1 => Some(Meaning {
            means: b"The input is longer than 10,000 bytes; of a sheet with place 0, the message built from it would be. (A text alone: 5,000 bytes typed, 10,000 in bank letters.)",
            remedy: b"Split the payment into more messages.",
        }),
        2 => Some(Meaning {
            means: b"The message does not begin with {4: and a line end, or does not end with a line end and -}.",
            remedy: b"Take the whole of block 4, and nothing else.",
        }),
        3 => Some(Meaning {
            means: b"A byte that a message may not hold, or a broken line end.",
            remedy: b"Retype that character; let each line end in CR LF.",
        }),
        4 => Some(Meaning {
            means: b"A line that is empty, begins with -, or has no right tag; or the first line opens no field.",
            remedy: b"Mend that line, or join it to the one above.",
        }),
        5 => Some(Meaning {
            means: b"A tag that this type of message does not have.",
            remedy: b"Take the field out, or see whether the type is right.",
        }),
        6 => Some(Meaning {
            means: b"A field out of order, or a second time.",
            remedy: b"Put the fields in their order, each once.",
        }),
        7 => Some(Meaning {
            means: b"A field that must be there is missing.",
            remedy: b"Add the field.",
        }),
        8 => Some(Meaning {
            means: b"A field's content is not as its tag asks.",
            remedy: b"Check the field against its rule (section C of RULES.md): lengths, digits, the comma of the amount, the / before an account.",
        }),
        9 => Some(Meaning {
            means: b"A date that is no day of the calendar.",
            remedy: b"Give a day that exists, as YYMMDD.",
        }),
        10 => Some(Meaning {
            means: b"A currency other than RUB.",
            remedy: b"This desk sends roubles only.",
        }),
        11 => Some(Meaning {
            means: b"A 56 (intermediary) without a 57.",
            remedy: b"Add the 57, or take the 56 out.",
        }),
        12 => Some(Meaning {
            means: b"A BIK and an account that do not belong together: their last three digits differ.",
            remedy: b"Ask the customer for the right pair.",
        }),
        13 => Some(Meaning {
            means: b"A payment to the budget that is not whole: 26T without 77B, or without INN and KPP of both payer and payee; or 77B without 26T.",
            remedy: b"Add what is missing, or take out 26T and 77B.",
        }),
        14 => Some(Meaning {
            means: b"A text that does not read back to Russian letters, or a name that would be taken for something else: an account, a new field, a tax line.",
            remedy: b"Ask the sender to send the text again.",
        }),
        15 => Some(Meaning {
            means: b"A character that can't be sent: a small Russian letter, an apostrophe in a name or in details; without the sign + any Russian letter.",
            remedy: b"Use capitals; for Russian letters begin field 20 with +.",
        }),
        16 => Some(Meaning {
            means: b"The details do not fit the lines of their field; those of a 103 do not fit the fields 70 and 72 together.",
            remedy: b"Shorten the details.",
        }),
        17 => Some(Meaning {
            means: b"The room lent is too short (a matter for the program, not for the clerk).",
            remedy: b"Call again with that much room.",
        }),
        18 => Some(Meaning {
            means: b"A type that is neither 103 nor 202.",
            remedy: b"Give the right type: 103 or 202.",
        }),
        19 => Some(Meaning {
            means: b"The sheet is not built as a sheet must be: a record without its end, an empty part, a wrong tag, VO digits that are not five.",
            remedy: b"Mend that line of the sheet.",
        }),
        21 => Some(Meaning {
            means: b"The details of a 103, run on from field 70 into field 72, have more than 210 bytes with their code.",
            remedy: b"Ask the sender to send it again with shorter details.",
        }),
        _ => None,
    }
}

pub(crate) fn text_of(text: Text) -> &'static [u8] {
    match text {
        Text::Unknown => b"There is no such number.",
        Text::Todo => b"to do",
        Text::Field => b"field",
        Text::Line => b"line",
        Text::Missing => b"missing",
        Text::Or => b"or",
        Text::Before => b"before line",
        Text::AtEnd => b"at the end",
        Text::Length => b"length of the message",
        Text::CrLf => b"The lines of this sheet end in CR LF: save it with LF alone.",
        Text::BareLf => b"Lines of this message end in LF alone: each must end in CR LF.",
        Text::Usage =>
            b"The first line must be tosheet or tomessage, the number, the place, and perhaps ru and how many bytes of input follow, with tabs between.",
    }
}
