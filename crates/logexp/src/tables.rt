// The two tables that the logarithm and the exponential share: the constants of the turns, and
// the order in which the turns use them.
ghost use Rattle.std.specs.Prelude.{◌≡◌, ◌<◌, pos};
ghost use Rattle.logexp.specs.Cordic.{step, atanh};

// Entry i is 2^i * 2 * atanh(2^-(i + 1)) / ln 2 in Q61. It changes no more from entry 30 on.
const ATANH_LOG2: [i64; 32] = [
    0x32B803473F7AD0F4,
    0x2F2A71BD4E25E916,
    0x2E68B244BB93BA06,
    0x2E39FB9198CE62E4,
    0x2E2E683F68565C8F,
    0x2E2B850BE2077FC1,
    0x2E2ACC58FE7B78DB,
    0x2E2A9E2DE52FD5F2,
    0x2E2A92A338D53EEC,
    0x2E2A8FC08F5E19B6,
    0x2E2A8F07E51A485E,
    0x2E2A8ED9BA8AF388,
    0x2E2A8ECE2FE7384A,
    0x2E2A8ECB4D3E4B1A,
    0x2E2A8ECA94940FE8,
    0x2E2A8ECA6669811D,
    0x2E2A8ECA5ADEDD6A,
    0x2E2A8ECA57FC347E,
    0x2E2A8ECA57438A43,
    0x2E2A8ECA57155FB4,
    0x2E2A8ECA5709D510,
    0x2E2A8ECA5706F267,
    0x2E2A8ECA570639BD,
    0x2E2A8ECA57060B92,
    0x2E2A8ECA57060008,
    0x2E2A8ECA5705FD25,
    0x2E2A8ECA5705FC6C,
    0x2E2A8ECA5705FC3E,
    0x2E2A8ECA5705FC33,
    0x2E2A8ECA5705FC30,
    0x2E2A8ECA5705FC2F,
    0x2E2A8ECA5705FC2F,
];

// The step of each of the 65 turns: 0 to 61 in order, where the steps 3, 12 and 39 come twice.
// These are the iterations 4, 13 and 40 of a count from 1; without their repetition the turns
// would not reach every angle.
const STEPS: [u32; 65] = [
    0, 1, 2, 3, 3, 4, 5, 6, 7, 8, 9, 10, 11, 12, 12, 13, 14, 15, 16, 17, 18, 19, 20, 21, 22, 23,
    24, 25, 26, 27, 28, 29, 30, 31, 32, 33, 34, 35, 36, 37, 38, 39, 39, 40, 41, 42, 43, 44, 45, 46,
    47, 48, 49, 50, 51, 52, 53, 54, 55, 56, 57, 58, 59, 60, 61,
];

// The step of turn k.
pub fn step_of(k: usize) -> u32
    requires { k < 65 }
    ensures value { result ≡ step k }
    ensures small { result < 62 }
{
    STEPS[k]
}

// The constant of step i: the last entry stands for every step past the table.
pub fn atanh_at(i: u32) -> i64
    ensures { result ≡ pos (atanh i) }
{
    ATANH_LOG2[i.min(31) as usize]
}
