// Rooms for what the programs read: what stands behind so many bytes changes no answer (`answer_read`, `sheet_answer_read`).
ghost use Rattle.std.specs.Prelude.{◌≡◌, replicate};
ghost use Rattle.answers.specs.Programs.{sheet_read, input_read};

pub fn sheet_room() -> [u8; 10001]
    ensures { result ≡ replicate sheet_read 0 }
{
    [0u8; 10001]
}

pub fn input_room() -> [u8; 10005]
    ensures { result ≡ replicate input_read 0 }
{
    [0u8; 10005]
}
