// Lines near 2^2 * √n, one for each of the 48 values of n's leading six digits. A line is one word: where it would be at 0, and, in its
// last twelve digits, its slope, 2^39 times as large. None is off by more than 2^-13.9 of the root (measure/roots/lines.py, which makes
// them). That they are near enough is proved (proofs/LineLaws.antt).
ghost use Rattle.std.specs.Prelude.{◌≡◌, ◌<◌, ◌≤◌};
ghost use Rattle.roots.specs.Lines.{line_of};

static LINES: [u32; 48] = [
    0x8204_13f0,
    0x85de_93d3,
    0x89aa_d3b8,
    0x8d3a_a3a0,
    0x90d1_d389,
    0x946d_b373,
    0x97b1_9360,
    0x9b1b_234d,
    0x9e4a_633c,
    0xa19c_132b,
    0xa4a7_d31c,
    0xa7d1_930d,
    0xaae1_d2ff,
    0xadd4_32f2,
    0xb0a3_f2e6,
    0xb38b_72da,
    0xb64a_92cf,
    0xb91f_d2c4,
    0xbc0b_c2b9,
    0xbec8_82af,
    0xc151_22a6,
    0xc3ea_f29d,
    0xc696_e294,
    0xc906_b28c,
    0xcb86_0284,
    0xce15_827c,
    0xd0b5_9274,
    0xd310_026d,
    0xd578_1266,
    0xd7ee_325f,
    0xda16_0259,
    0xdca8_0252,
    0xdee8_824c,
    0xe134_d246,
    0xe38d_5240,
    0xe58b_823b,
    0xe7fb_9235,
    0xea0e_0230,
    0xec29_b22b,
    0xee4f_6226,
    0xf07f_2221,
    0xf2b9_321c,
    0xf488_c218,
    0xf6d6_7213,
    0xf8b5_e20f,
    0xfb17_d20a,
    0xfd08_5206,
    0xff00_0202,
];

// The line of the leading digits `part`.
pub fn line(part: u64) -> u64
    requires { (16 ≤ part) × (part < 64) }
    ensures { result ≡ line_of part }
{
    LINES[part as usize - 16] as u64
}
