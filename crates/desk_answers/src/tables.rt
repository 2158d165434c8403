ghost use Rattle.std.specs.Prelude.{◌≡◌, ◌+◌, ◌≤◌, ◌++◌, length};
ghost use Rattle.desk_answers.specs.Objects.{number_behind};
ghost use Rattle.desk_answers.specs.ProfileTables.{first_rows, last_rows, middle_rows, table_text};

use arrayvec::ArrayString;
use itoa::Buffer;
use site_types::Profile;

// The profile's table, with its line end.
pub(crate) fn table(profile: &Profile) -> ArrayString<640>
    ensures text { result.bytes ≡ table_text profile.now.format }
    ensures short { length result.bytes ≤ 640 }
{
    let mut text = ArrayString::new();
    put_first(&mut text, profile);
    put_middle(&mut text, profile);
    put_last(&mut text, profile);
    text.push_str("}\n");
    text
}

// Puts the rows up to the greatest wait of the mains.
fn put_first(text: &mut ArrayString<640>, profile: &Profile)
    requires { length text.old.bytes ≤ 0 }
    ensures text { text.new.bytes ≡ first_rows text.old.bytes profile.now.format }
    ensures short { length text.new.bytes ≤ 200 }
{
    put(text, "{\"charger\":", profile.greatest_charger_wait());
    put(text, ",\"disablement\":", profile.disablement());
    put(text, ",\"fault\":", profile.fault());
    put(text, ",\"indication\":", profile.signal());
    put(text, ",\"mains\":", profile.greatest_mains_wait());
}

// Puts the rows up to those on routing.
fn put_middle(text: &mut ArrayString<640>, profile: &Profile)
    requires { length text.old.bytes ≤ 200 }
    ensures text { text.new.bytes ≡ middle_rows text.old.bytes profile.now.format }
    ensures short { length text.new.bytes ≤ 400 }
{
    put(text, ",\"missing\":", profile.missing());
    put(text, ",\"network\":", profile.network());
    put(text, ",\"output\":", profile.output());
    put(text, ",\"reset\":", profile.reset());
    put(text, ",\"routing\":", profile.routing());
}

// Puts the rows behind these.
fn put_last(text: &mut ArrayString<640>, profile: &Profile)
    requires { length text.old.bytes ≤ 400 }
    ensures text { text.new.bytes ≡ last_rows text.old.bytes profile.now.format }
    ensures short { length text.new.bytes ≤ 600 }
{
    put(text, ",\"signal\":", profile.signal());
    put(text, ",\"silent\":", profile.silent());
    put(text, ",\"standby\":", profile.greatest_standby_wait());
    put(text, ",\"verify\":", profile.verify());
    put(text, ",\"voltage\":", profile.greatest_voltage_wait());
}

// Puts a number behind a text.
fn put(text: &mut ArrayString<640>, words: &str, number: u64)
    requires { length text.old.bytes + length words.now + 20 ≤ 640 }
    ensures text { text.new.bytes ≡ text.old.bytes ++ number_behind words.now number }
    ensures short { length text.new.bytes ≤ length text.old.bytes + length words.now + 20 }
{
    let mut digits = Buffer::new();
    text.push_str(words);
    text.push_str(digits.format(number));
}
