// Stamps of volume and page, kind 2: volumes 0 to 9,999 with pages 0 to 9,999.
ghost use Rattle.std.specs.Prelude.{◌≡◌};
ghost use Rattle.kinds.specs.Volume.{volume_of, page_of, next_of, volume_kind, volume_pick, volume_read};
ghost use Rattle.kinds.specs.VolumeLaws.{volume_laws};

use crate::stamp::Stamp;
use std::cmp::Ordering;

// The last volume, and the last page of a volume.
pub const LAST: u32 = 9999;

// A volume or a page above 9,999 counts as 9,999.
#[derive(Clone, Copy)]
pub struct VolumePage {
    pub volume: u32,
    pub page: u32,
}

impl VolumePage {
    // The volume that this content counts as.
    pub fn counted_volume(self) -> u32
        ensures { result ≡ volume_of self }
    {
        self.volume.min(LAST)
    }

    // The page that this content counts as.
    pub fn counted_page(self) -> u32
        ensures { result ≡ page_of self }
    {
        self.page.min(LAST)
    }

    // The next page, or page 0 of the next volume; none after the last stamp.
    pub fn next(self) -> Option<VolumePage>
        ensures { result ≡ next_of (volume_of self) (page_of self) }
    {
        let volume = self.counted_volume();
        let page = self.counted_page();
        if page < LAST {
            Some(VolumePage {
                volume,
                page: page + 1,
            })
        } else if volume < LAST {
            Some(VolumePage {
                volume: volume + 1,
                page: 0,
            })
        } else {
            None
        }
    }
}

impl Stamp for VolumePage {
    ghost kind = { volume_kind };

    ghost lawful = { volume_laws };

    fn number() -> u8 {
        2
    }

    // By volume, then by page.
    fn compare(self, other: VolumePage) -> Ordering {
        let volumes = self.counted_volume().cmp(&other.counted_volume());
        volumes.then(self.counted_page().cmp(&other.counted_page()))
    }

    fn least() -> VolumePage {
        VolumePage { volume: 0, page: 0 }
    }

    // With an upper bound the next stamp, if that is before it; without one page 0 of the next
    // volume, and in the last volume the next page.
    fn pick(self, upper: Option<VolumePage>) -> Option<VolumePage>
        ensures { result ≡ volume_pick self upper }
    {
        let volume = self.counted_volume();
        match upper {
            None if volume < LAST => Some(VolumePage {
                volume: volume + 1,
                page: 0,
            }),
            None => self.next(),
            Some(bound) => {
                let next = self.next()?;
                next.compare(bound).is_lt().then_some(next)
            }
        }
    }

    fn to_bytes(self) -> [u8; 8] {
        let [a, b, c, d] = self.counted_volume().to_be_bytes();
        let [e, f, g, h] = self.counted_page().to_be_bytes();
        [a, b, c, d, e, f, g, h]
    }

    // A volume or a page above 9,999 is no form.
    fn from_bytes(bytes: [u8; 8]) -> Option<VolumePage>
        ensures { result ≡ volume_read bytes }
    {
        let [a, b, c, d, e, f, g, h] = bytes;
        let volume = u32::from_be_bytes([a, b, c, d]);
        let page = u32::from_be_bytes([e, f, g, h]);
        (volume <= LAST && page <= LAST).then_some(VolumePage { volume, page })
    }
}
