//! A road side unit says where it is: its CAM (ETSI EN 302 637-2) is made, written as octets, and read again.

use cam::basic_container::BasicContainer;
use cam::cam::Cam;
use cam::cam_parameters::CamParameters;
use cam::coop_awareness::CoopAwareness;
use cam::high_frequency_container::HighFrequencyContainer;
use cam::rsu_container_high_frequency::RsuContainerHighFrequency;
use its_container::altitude::Altitude;
use its_container::altitude_confidence::AltitudeConfidence;
use its_container::its_pdu_header::ItsPduHeader;
use its_container::pos_confidence_ellipse::PosConfidenceEllipse;
use its_container::reference_position::ReferencePosition;
use rasn_per::uper;
use std::io;

const POSITION: ReferencePosition = ReferencePosition {
    latitude: 435_549_160,
    longitude: 103_036_950,
    position_confidence_ellipse: PosConfidenceEllipse {
        semi_major_confidence: 4095,
        semi_minor_confidence: 4095,
        semi_major_orientation: 3601,
    },
    altitude: Altitude {
        altitude_value: 800_001,
        altitude_confidence: AltitudeConfidence::Unavailable,
    },
};

fn message() -> Cam {
    let unit = RsuContainerHighFrequency {
        protected_communication_zones_rsu: None,
    };
    Cam {
        header: ItsPduHeader {
            protocol_version: 2,
            message_id: 2,
            station_id: 12_345_678,
        },
        cam: CoopAwareness {
            generation_delta_time: 5000,
            cam_parameters: CamParameters {
                basic_container: BasicContainer {
                    station_type: 15,
                    reference_position: POSITION,
                },
                high_frequency_container: HighFrequencyContainer::RsuContainerHighFrequency(unit),
                low_frequency_container: None,
                special_vehicle_container: None,
            },
        },
    }
}

/// A refusal is looked at, or passed on by `?`: an `io::Result` has its name, an `anyhow::Result` the refusal itself.
pub fn run(rt: &(impl Print + AllocGlobal)) -> io::Result<()> {
    let octets = uper::encode(rt.alloc(), &message())?;
    let digits = hex::encode(rt.alloc(), octets.as_slice())?;
    println!(rt; "{digits}")?;
    let read = uper::decode::<Cam>(rt.alloc(), octets.as_slice())?;
    println!(rt; "{:?}", read.header)?;
    if let Some((_, cut)) = octets.split_last() {
        match uper::decode::<Cam>(rt.alloc(), cut) {
            Ok(_) => println!(rt; "cut off: read")?,
            Err(error) => println!(rt; "cut off: {error}")?,
        }
    }
    Ok(())
}
