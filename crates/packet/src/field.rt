ghost use Rattle.std.specs.Prelude.{◌≡◌, ◌+◌, ◌%◌, ◌^◌, ◌<◌, length};
ghost use Rattle.model.specs.Stamps.{stamp};
ghost use Rattle.model.specs.Moves.{W, stamps, set_stamp};
ghost use Rattle.packet.specs.Fields.{set_pcr_field};

// How many values a stamp has, 2^33.
pub const STAMP_VALUES: u64 = 8_589_934_592;

// Writes a clock value into its field, six bytes. The reserved bits stay. Fields are slices, as they are parts of a packet or payload at
// places that are counted: arrays would be one more conversion at each call. A stamp is a number below 2^33 that one caller makes: a type
// of its own would say no more.
pub fn put_pcr(field: &mut [u8], value: u64)
    requires { (length field.old ≡ 6) × (value < W) }
    ensures { field.new ≡ set_pcr_field value field.old }
{
    let base = value / 300;
    let [high, low] = ((value % 300) as u16).to_be_bytes();
    field[..4].copy_from_slice(&((base / 2) as u32).to_be_bytes());
    field[4] = (base % 2 * 128) as u8 + field[4] / 2 % 64 * 2 + high;
    field[5] = low;
}

// The 33 bits of a stamp, five bytes.
fn stamp_of(field: &[u8]) -> u64
    requires { length field.now ≡ 5 }
    ensures value { result ≡ stamp field.now 0 }
    ensures small { result < 2 ^ 33 }
{
    let high = u64::from(field[0] / 2 % 8);
    let middle = u64::from(u16::from_be_bytes([field[1], field[2]]) / 2);
    let low = u64::from(u16::from_be_bytes([field[3], field[4]]) / 2);
    (high * 32_768 + middle) * 32_768 + low
}

// Writes a stamp into its five bytes. The prefix and the marker bits stay, so they are written one by one.
fn put_stamp(field: &mut [u8], value: u64)
    requires { (length field.old ≡ 5) × (value < 2 ^ 33) }
    ensures { field.new ≡ set_stamp 0 value field.old }
{
    field[0] = field[0] / 16 * 16 + (value / 1_073_741_824 * 2) as u8 + field[0] % 2;
    field[1] = (value / 4_194_304 % 256) as u8;
    field[2] = (value / 32_768 % 128 * 2) as u8 + field[2] % 2;
    field[3] = (value / 128 % 256) as u8;
    field[4] = (value % 128 * 2) as u8 + field[4] % 2;
}

// Moves a stamp on in its five bytes.
pub fn move_stamp(field: &mut [u8], by: u64)
    requires { (length field.old ≡ 5) × (by < 2 ^ 33) }
    ensures { field.new ≡ set_stamp 0 ((stamp field.old 0 + by) % stamps) field.old }
{
    let value = (stamp_of(field) + by) % STAMP_VALUES;
    put_stamp(field, value);
}
