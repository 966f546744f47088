// The proleptic Gregorian calendar: leap years, the lengths of months and years, and the days
// before each.
ghost use Rattle.std.specs.Prelude.{◌≡◌, false, ℕ, suc, ◌+◌, ◌<◌, ◌≤◌, get_or};
ghost use Rattle.calendar.specs.gregorian.Gregorian.{length_in, days_before, before_year, before_month, LeapPromise, MonthLengthPromise, YearLengthPromise};

// The serial day of 1 January of each year of the first cycle: FIRST_OF_YEAR[k] is that of year k +
// 1.
const FIRST_OF_YEAR: [u32; 400] = [
    1, 366, 731, 1096, 1462, 1827, 2192, 2557, 2923, 3288, 3653, 4018, 4384, 4749, 5114, 5479,
    5845, 6210, 6575, 6940, 7306, 7671, 8036, 8401, 8767, 9132, 9497, 9862, 10228, 10593, 10958,
    11323, 11689, 12054, 12419, 12784, 13150, 13515, 13880, 14245, 14611, 14976, 15341, 15706,
    16072, 16437, 16802, 17167, 17533, 17898, 18263, 18628, 18994, 19359, 19724, 20089, 20455,
    20820, 21185, 21550, 21916, 22281, 22646, 23011, 23377, 23742, 24107, 24472, 24838, 25203,
    25568, 25933, 26299, 26664, 27029, 27394, 27760, 28125, 28490, 28855, 29221, 29586, 29951,
    30316, 30682, 31047, 31412, 31777, 32143, 32508, 32873, 33238, 33604, 33969, 34334, 34699,
    35065, 35430, 35795, 36160, 36525, 36890, 37255, 37620, 37986, 38351, 38716, 39081, 39447,
    39812, 40177, 40542, 40908, 41273, 41638, 42003, 42369, 42734, 43099, 43464, 43830, 44195,
    44560, 44925, 45291, 45656, 46021, 46386, 46752, 47117, 47482, 47847, 48213, 48578, 48943,
    49308, 49674, 50039, 50404, 50769, 51135, 51500, 51865, 52230, 52596, 52961, 53326, 53691,
    54057, 54422, 54787, 55152, 55518, 55883, 56248, 56613, 56979, 57344, 57709, 58074, 58440,
    58805, 59170, 59535, 59901, 60266, 60631, 60996, 61362, 61727, 62092, 62457, 62823, 63188,
    63553, 63918, 64284, 64649, 65014, 65379, 65745, 66110, 66475, 66840, 67206, 67571, 67936,
    68301, 68667, 69032, 69397, 69762, 70128, 70493, 70858, 71223, 71589, 71954, 72319, 72684,
    73049, 73414, 73779, 74144, 74510, 74875, 75240, 75605, 75971, 76336, 76701, 77066, 77432,
    77797, 78162, 78527, 78893, 79258, 79623, 79988, 80354, 80719, 81084, 81449, 81815, 82180,
    82545, 82910, 83276, 83641, 84006, 84371, 84737, 85102, 85467, 85832, 86198, 86563, 86928,
    87293, 87659, 88024, 88389, 88754, 89120, 89485, 89850, 90215, 90581, 90946, 91311, 91676,
    92042, 92407, 92772, 93137, 93503, 93868, 94233, 94598, 94964, 95329, 95694, 96059, 96425,
    96790, 97155, 97520, 97886, 98251, 98616, 98981, 99347, 99712, 100077, 100442, 100808, 101173,
    101538, 101903, 102269, 102634, 102999, 103364, 103730, 104095, 104460, 104825, 105191, 105556,
    105921, 106286, 106652, 107017, 107382, 107747, 108113, 108478, 108843, 109208, 109573, 109938,
    110303, 110668, 111034, 111399, 111764, 112129, 112495, 112860, 113225, 113590, 113956, 114321,
    114686, 115051, 115417, 115782, 116147, 116512, 116878, 117243, 117608, 117973, 118339, 118704,
    119069, 119434, 119800, 120165, 120530, 120895, 121261, 121626, 121991, 122356, 122722, 123087,
    123452, 123817, 124183, 124548, 124913, 125278, 125644, 126009, 126374, 126739, 127105, 127470,
    127835, 128200, 128566, 128931, 129296, 129661, 130027, 130392, 130757, 131122, 131488, 131853,
    132218, 132583, 132949, 133314, 133679, 134044, 134410, 134775, 135140, 135505, 135871, 136236,
    136601, 136966, 137332, 137697, 138062, 138427, 138793, 139158, 139523, 139888, 140254, 140619,
    140984, 141349, 141715, 142080, 142445, 142810, 143176, 143541, 143906, 144271, 144637, 145002,
    145367, 145732,
];

// Whether a year is a leap year of the Gregorian calendar.
pub fn is_leap(year: u32) -> bool
    ensures { LeapPromise year result }
{
    // Of those that 25 divides the leap years are those that 16 divides, and 16 takes no division.
    if year % 25 == 0 {
        year % 16 == 0
    } else {
        year % 4 == 0
    }
}

// How many days a month of a year has; 0 where there is no such month.
pub fn length_of_month(year: u32, month: u32) -> u32
    ensures { MonthLengthPromise year month result }
{
    match month {
        // In two arms: the proof of one of seven numbers did not close.
        1 | 3 | 5 | 7 => 31,
        8 | 10 | 12 => 31,
        4 | 6 | 9 | 11 => 30,
        2 if is_leap(year) => 29,
        2 => 28,
        _ => 0,
    }
}

// How many days a year has; 0 for year 0, which does not exist.
pub fn length_of_year(year: u32) -> u32
    ensures { YearLengthPromise year result }
{
    if year < 1 {
        return 0;
    }
    if is_leap(year) { 366 } else { 365 }
}

// The days of a common year before a month of it: from March on the months follow one rule, and a
// shift divides.
fn common_before_month(month: u32) -> u32
    requires { (1 ≤ month) × (month ≤ 13) }
    ensures { result ≡ days_before (length_in false) month }
{
    if 2 < month {
        (979 * month - 1031) / 32
    } else {
        31 * (month - 1)
    }
}

// Inner: the days of a year before a month of it; asks for a month from 1 to 13.
pub fn days_before_month(year: u32, month: u32) -> u32
    requires { (1 ≤ month) × (month ≤ 13) }
    ensures { result ≡ before_month year month }
{
    // Month 13 is the next year's first.
    let common = common_before_month(month);
    if month < 3 {
        return common;
    }
    if is_leap(year) { common + 1 } else { common }
}

// The table, whose rule is proved here once for all 400 entries.
fn first_of_years() -> [u32; 400]
    ensures { (k : ℕ) → k < 400 → get_or result k 0 ≡ before_year (suc k) + 1 }
{
    FIRST_OF_YEAR
}

// Inner: the serial day of 1 January, by the table; asks for a year from 1 to 9999.
pub fn first_of_year(year: u32) -> u32
    requires { (1 ≤ year) × (year ≤ 9999) }
    ensures { result ≡ before_year year + 1 }
{
    // Each call writes the table out, so what must be quick counts instead.
    let first = first_of_years();
    let past = year - 1;
    past / 400 * 146097 + first[(past % 400) as usize]
}
