// Addresses on the Universal Measurement Bus. Each rule stands once, as a definition and as a function.
#![tactic(auto)]

ghost use Rattle.std.specs.Prelude.{◌≡◌};
ghost use Rattle.address.specs.Addressing.{class, reserve, id, of_station_class, station, controller, broadcast_to_all, broadcast_to_class, reaches, HasRole};

// What an address is used for.
#[derive(Clone, Copy, Debug, PartialEq, Eq)]
pub enum Role {
    OfStation,
    OfController,
    ToAll,
    ToClass,
    OfNobody,
}

// An address of 16 bits, of a device or of nobody: any number may come over the line.
#[derive(Clone, Copy, Debug, PartialEq, Eq)]
pub struct Address(pub u16);

impl Address {
    pub fn class(self) -> u16
        ensures { result ≡ class self.0 }
    {
        self.0 / 4096
    }

    pub fn reserve(self) -> u16
        ensures { result ≡ reserve self.0 }
    {
        self.0 / 256 % 16
    }

    pub fn id(self) -> u16
        ensures { result ≡ id self.0 }
    {
        self.0 % 256
    }

    fn has_station_class(self) -> bool
        ensures { result ≡ of_station_class self.0 }
    {
        (1..=14).contains(&self.class())
    }

    pub fn is_station(self) -> bool
        ensures { result ≡ station self.0 }
    {
        self.has_station_class() && self.reserve() == 0 && 1 <= self.id()
    }

    pub fn is_controller(self) -> bool
        ensures { result ≡ controller self.0 }
    {
        self.class() == 15 && self.reserve() == 0 && 1 <= self.id()
    }

    pub fn is_broadcast_to_all(self) -> bool
        ensures { result ≡ broadcast_to_all self.0 }
    {
        self.0 == 0
    }

    pub fn is_broadcast_to_class(self) -> bool
        ensures { result ≡ broadcast_to_class self.0 }
    {
        self.has_station_class() && self.reserve() == 0 && self.id() == 0
    }

    // Whether a telegram to `self` is a broadcast that the station `to` hears.
    pub fn reaches(self, to: Address) -> bool
        ensures { result ≡ reaches self.0 to.0 }
    {
        if !to.is_station() {
            return false;
        }
        if self.is_broadcast_to_all() {
            return true;
        }
        self.is_broadcast_to_class() && self.class() == to.class()
    }

    pub fn role(self) -> Role
        ensures { HasRole self.0 result }
    {
        if self.is_station() {
            return Role::OfStation;
        }
        if self.is_controller() {
            return Role::OfController;
        }
        if self.is_broadcast_to_all() {
            return Role::ToAll;
        }
        if self.is_broadcast_to_class() {
            return Role::ToClass;
        }
        Role::OfNobody
    }
}
