// A kind of value: what terms work out to and assignments hold.
ghost use Rattle.std.specs.Prelude.{◌≡◌, ℕ};
ghost use Rattle.kinds.specs.Kind.{KindOf};

pub trait Kind: Copy {
    // The whole meaning of the kind, with its laws.
    ghost kind: { KindOf Self };

    fn yes() -> Self
        ensures { result ≡ kind.yes };

    fn no() -> Self
        ensures { result ≡ kind.no };

    fn truth(self) -> bool
        ensures { result ≡ kind.truth self };

    fn literal(n: u16) -> Self
        ensures { result ≡ kind.literal n };

    fn same(self, other: Self) -> bool
        ensures { result ≡ kind.same self other };

    // How many operations the kind has: they are numbered from 0.
    fn ops() -> u16
        ensures { result ≡ kind.ops };

    fn operate(op: u16, p: Self, q: Self) -> Self
        ensures { result ≡ kind.operate op p q };
}
