// What tells one zone.
ghost use Rattle.std.specs.Prelude.{◌≡◌};
ghost use Rattle.std.specs.Option.{option_copied};
ghost use Rattle.zone_model.specs.Records.{record_at};
ghost use Rattle.zone_records.specs.Told.{Told, puts_told, IsLeft};
ghost use Rattle.zone_records.specs.Next.{next_child, next_referrer};

use ck_base::{RecordName, ZoneKey};
use record_model::{Record, Subscription};

/// Tells one zone, as a list of lawful commits leaves it.
pub trait Records {
    /// What is told.
    ghost told: { Self → Told };

    /// The calls may be made.
    ghost may_be_asked: { Self → Type 0 };

    /// The key of the zone.
    fn key(&self) -> &ZoneKey
        requires { may_be_asked self.now }
        ensures { result.now ≡ (told self.now).key };

    /// Whether the zone is there. The second clause is a law: some list of lawful commits leaves what is told.
    fn here(&self) -> bool
        requires { may_be_asked self.now }
        ensures there { result ≡ (told self.now).zone.there }
        ensures left { IsLeft (told self.now) };

    /// The subscriptions of the zone, in ascending order of their scopes and names.
    fn subscriptions(&self) -> &[Subscription]
        requires { may_be_asked self.now }
        ensures { result.now ≡ (told self.now).subscriptions };

    /// The record of that name.
    fn row(&self, name: &RecordName) -> Option<&Record>
        requires { may_be_asked self.now }
        ensures { option_copied result ≡ record_at (told self.now).zone.rows name.now };

    /// How many commits have put the name, in all its lives.
    fn puts(&self, name: &RecordName) -> u64
        requires { may_be_asked self.now }
        ensures { result ≡ puts_told (told self.now) name.now };

    /// The first record with this parent whose name comes after `after`.
    fn next_child(&self, name: &RecordName, after: Option<&RecordName>) -> Option<&RecordName>
        requires { may_be_asked self.now }
        ensures { option_copied result ≡ next_child (told self.now).zone.rows name.now (option_copied after.entry) };

    /// The first record with a DELETE_SELF reference to the name whose own name comes after `after`.
    fn next_referrer(&self, name: &RecordName, after: Option<&RecordName>) -> Option<&RecordName>
        requires { may_be_asked self.now }
        ensures { option_copied result ≡ next_referrer (told self.now).zone.rows name.now (option_copied after.entry) };
}
