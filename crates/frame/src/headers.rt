// The header of a data frame.
ghost use Rattle.std.specs.Prelude.{◌≡◌, ◌<◌, Ok};
ghost use Rattle.frame.specs.Headers.{header_octets, header_in, flags_octet};

use crate::addresses::Address;
use octets::{little, put};

// What a header says. The retry, power management and more data flags, and the duration, say nothing here: they are
// written as zeros and not read.
#[derive(Clone, Copy, PartialEq, Eq, Debug)]
pub struct Header {
    pub to_ds: bool,
    pub from_ds: bool,
    pub more_fragments: bool,
    pub protected: bool,
    pub order: bool,
    pub address1: Address,
    pub address2: Address,
    pub address3: Address,
    pub sequence: u16,
    pub fragment: u8,
}

// Why octets are no header of a data frame.
#[derive(Clone, Copy, PartialEq, Eq, Debug)]
pub enum HeaderFault {
    // fewer than 24 octets
    Short,
    // the first octet is not 0x08
    NotData,
}

impl Header {
    pub const LENGTH: usize = 24;

    // The flags, as the second octet of a frame has them.
    fn flags(&self) -> u8
        ensures { result ≡ flags_octet self.now }
    {
        u8::from(self.to_ds)
            + u8::from(self.from_ds) * 2
            + u8::from(self.more_fragments) * 4
            + u8::from(self.protected) * 64
            + u8::from(self.order) * 128
    }

    // The 24 octets of the header; read, they give the header back.
    // Kept: no `From`, since a sequence number of 4,096 or more has no octets, and a frame goes on behind its header.
    pub fn octets(&self) -> [u8; 24]
        requires sequence { self.now.sequence < 4096 }
        requires fragment { self.now.fragment < 16 }
        ensures value { result ≡ header_octets self.now }
        ensures reads_back { header_in result ≡ Ok self.now }
    {
        let mut octets = [0u8; 24];
        octets[0] = 8;
        octets[1] = self.flags();
        put(&mut octets, 4, &self.address1.octets);
        put(&mut octets, 10, &self.address2.octets);
        put(&mut octets, 16, &self.address3.octets);
        let control = u64::from(self.sequence) * 16 + u64::from(self.fragment);
        little::put_number::<2>(&mut octets, 22, control);
        octets
    }

    // What the first octets of a frame say.
    // Kept: no `TryFrom`, since a frame goes on behind its header, and only its beginning is read.
    pub fn read(frame: &[u8]) -> Result<Header, HeaderFault>
        ensures { result ≡ header_in frame.now }
    {
        if frame.len() < Header::LENGTH {
            return Err(HeaderFault::Short);
        }
        if frame[0] != 8 {
            return Err(HeaderFault::NotData);
        }
        let flags = frame[1];
        let control = little::number_at::<2>(frame, 22);
        Ok(Header {
            to_ds: flags % 2 == 1,
            from_ds: flags / 2 % 2 == 1,
            more_fragments: flags / 4 % 2 == 1,
            protected: flags / 64 % 2 == 1,
            order: flags / 128 % 2 == 1,
            address1: Address::at(frame, 4),
            address2: Address::at(frame, 10),
            address3: Address::at(frame, 16),
            sequence: (control / 16) as u16,
            fragment: (control % 16) as u8,
        })
    }
}
