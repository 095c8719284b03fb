// Written by tools/asn1/compile: change the ASN.1, not this file.
//! Names for types under constraints, for lists, and for numbers and bits.

use crate::path_point::PathPoint;
use crate::protected_communication_zone::ProtectedCommunicationZone;
use rasn_below::page::*;

/// StationID ::= INTEGER (0..4294967295)
pub type StationId = u32;

/// StationType ::= INTEGER { unknown(0), pedestrian(1), cyclist(2), moped(3), motorcycle(4), passengerCar(5),
///     bus(6), lightTruck(7), heavyTruck(8), trailer(9), specialVehicles(10), tram(11), roadSideUnit(15) } (0..255)
pub type StationType = u8;

/// `unknown` of StationType.
pub const STATION_TYPE_UNKNOWN: u8 = 0;

/// `pedestrian` of StationType.
pub const STATION_TYPE_PEDESTRIAN: u8 = 1;

/// `cyclist` of StationType.
pub const STATION_TYPE_CYCLIST: u8 = 2;

/// `moped` of StationType.
pub const STATION_TYPE_MOPED: u8 = 3;

/// `motorcycle` of StationType.
pub const STATION_TYPE_MOTORCYCLE: u8 = 4;

/// `passengerCar` of StationType.
pub const STATION_TYPE_PASSENGER_CAR: u8 = 5;

/// `bus` of StationType.
pub const STATION_TYPE_BUS: u8 = 6;

/// `lightTruck` of StationType.
pub const STATION_TYPE_LIGHT_TRUCK: u8 = 7;

/// `heavyTruck` of StationType.
pub const STATION_TYPE_HEAVY_TRUCK: u8 = 8;

/// `trailer` of StationType.
pub const STATION_TYPE_TRAILER: u8 = 9;

/// `specialVehicles` of StationType.
pub const STATION_TYPE_SPECIAL_VEHICLES: u8 = 10;

/// `tram` of StationType.
pub const STATION_TYPE_TRAM: u8 = 11;

/// `roadSideUnit` of StationType.
pub const STATION_TYPE_ROAD_SIDE_UNIT: u8 = 15;

/// Latitude ::= INTEGER { oneMicrodegreeNorth(10), oneMicrodegreeSouth(-10), unavailable(900000001) }
///     (-900000000..900000001)
pub type Latitude = i32;

/// `oneMicrodegreeNorth` of Latitude.
pub const LATITUDE_ONE_MICRODEGREE_NORTH: i32 = 10;

/// `oneMicrodegreeSouth` of Latitude.
pub const LATITUDE_ONE_MICRODEGREE_SOUTH: i32 = -10;

/// `unavailable` of Latitude.
pub const LATITUDE_UNAVAILABLE: i32 = 900_000_001;

/// Longitude ::= INTEGER { oneMicrodegreeEast(10), oneMicrodegreeWest(-10), unavailable(1800000001) }
///     (-1800000000..1800000001)
pub type Longitude = i32;

/// `oneMicrodegreeEast` of Longitude.
pub const LONGITUDE_ONE_MICRODEGREE_EAST: i32 = 10;

/// `oneMicrodegreeWest` of Longitude.
pub const LONGITUDE_ONE_MICRODEGREE_WEST: i32 = -10;

/// `unavailable` of Longitude.
pub const LONGITUDE_UNAVAILABLE: i32 = 1_800_000_001;

/// SemiAxisLength ::= INTEGER { oneCentimeter(1), outOfRange(4094), unavailable(4095) } (0..4095)
pub type SemiAxisLength = u16;

/// `oneCentimeter` of SemiAxisLength.
pub const SEMI_AXIS_LENGTH_ONE_CENTIMETER: u16 = 1;

/// `outOfRange` of SemiAxisLength.
pub const SEMI_AXIS_LENGTH_OUT_OF_RANGE: u16 = 4094;

/// `unavailable` of SemiAxisLength.
pub const SEMI_AXIS_LENGTH_UNAVAILABLE: u16 = 4095;

/// HeadingValue ::= INTEGER { wgs84North(0), wgs84East(900), wgs84South(1800), wgs84West(2700), unavailable(3601) }
///     (0..3601)
pub type HeadingValue = u16;

/// `wgs84North` of HeadingValue.
pub const HEADING_VALUE_WGS84_NORTH: u16 = 0;

/// `wgs84East` of HeadingValue.
pub const HEADING_VALUE_WGS84_EAST: u16 = 900;

/// `wgs84South` of HeadingValue.
pub const HEADING_VALUE_WGS84_SOUTH: u16 = 1800;

/// `wgs84West` of HeadingValue.
pub const HEADING_VALUE_WGS84_WEST: u16 = 2700;

/// `unavailable` of HeadingValue.
pub const HEADING_VALUE_UNAVAILABLE: u16 = 3601;

/// AltitudeValue ::= INTEGER { referenceEllipsoidSurface(0), oneCentimeter(1), unavailable(800001) }
///     (-100000..800001)
pub type AltitudeValue = i32;

/// `referenceEllipsoidSurface` of AltitudeValue.
pub const ALTITUDE_VALUE_REFERENCE_ELLIPSOID_SURFACE: i32 = 0;

/// `oneCentimeter` of AltitudeValue.
pub const ALTITUDE_VALUE_ONE_CENTIMETER: i32 = 1;

/// `unavailable` of AltitudeValue.
pub const ALTITUDE_VALUE_UNAVAILABLE: i32 = 800_001;

/// HeadingConfidence ::= INTEGER { equalOrWithinZeroPointOneDegree(1), equalOrWithinOneDegree(10), outOfRange(126),
///     unavailable(127) } (1..127)
pub type HeadingConfidence = u8;

/// `equalOrWithinZeroPointOneDegree` of HeadingConfidence.
pub const HEADING_CONFIDENCE_EQUAL_OR_WITHIN_ZERO_POINT_ONE_DEGREE: u8 = 1;

/// `equalOrWithinOneDegree` of HeadingConfidence.
pub const HEADING_CONFIDENCE_EQUAL_OR_WITHIN_ONE_DEGREE: u8 = 10;

/// `outOfRange` of HeadingConfidence.
pub const HEADING_CONFIDENCE_OUT_OF_RANGE: u8 = 126;

/// `unavailable` of HeadingConfidence.
pub const HEADING_CONFIDENCE_UNAVAILABLE: u8 = 127;

/// SpeedValue ::= INTEGER { standstill(0), oneCentimeterPerSec(1), unavailable(16383) } (0..16383)
pub type SpeedValue = u16;

/// `standstill` of SpeedValue.
pub const SPEED_VALUE_STANDSTILL: u16 = 0;

/// `oneCentimeterPerSec` of SpeedValue.
pub const SPEED_VALUE_ONE_CENTIMETER_PER_SEC: u16 = 1;

/// `unavailable` of SpeedValue.
pub const SPEED_VALUE_UNAVAILABLE: u16 = 16_383;

/// SpeedConfidence ::= INTEGER { equalOrWithinOneCentimeterPerSec(1), equalOrWithinOneMeterPerSec(100),
///     outOfRange(126), unavailable(127) } (1..127)
pub type SpeedConfidence = u8;

/// `equalOrWithinOneCentimeterPerSec` of SpeedConfidence.
pub const SPEED_CONFIDENCE_EQUAL_OR_WITHIN_ONE_CENTIMETER_PER_SEC: u8 = 1;

/// `equalOrWithinOneMeterPerSec` of SpeedConfidence.
pub const SPEED_CONFIDENCE_EQUAL_OR_WITHIN_ONE_METER_PER_SEC: u8 = 100;

/// `outOfRange` of SpeedConfidence.
pub const SPEED_CONFIDENCE_OUT_OF_RANGE: u8 = 126;

/// `unavailable` of SpeedConfidence.
pub const SPEED_CONFIDENCE_UNAVAILABLE: u8 = 127;

/// VehicleLengthValue ::= INTEGER { tenCentimeters(1), outOfRange(1022), unavailable(1023) } (1..1023)
pub type VehicleLengthValue = u16;

/// `tenCentimeters` of VehicleLengthValue.
pub const VEHICLE_LENGTH_VALUE_TEN_CENTIMETERS: u16 = 1;

/// `outOfRange` of VehicleLengthValue.
pub const VEHICLE_LENGTH_VALUE_OUT_OF_RANGE: u16 = 1022;

/// `unavailable` of VehicleLengthValue.
pub const VEHICLE_LENGTH_VALUE_UNAVAILABLE: u16 = 1023;

/// VehicleWidth ::= INTEGER { tenCentimeters(1), outOfRange(61), unavailable(62) } (1..62)
pub type VehicleWidth = u8;

/// `tenCentimeters` of VehicleWidth.
pub const VEHICLE_WIDTH_TEN_CENTIMETERS: u8 = 1;

/// `outOfRange` of VehicleWidth.
pub const VEHICLE_WIDTH_OUT_OF_RANGE: u8 = 61;

/// `unavailable` of VehicleWidth.
pub const VEHICLE_WIDTH_UNAVAILABLE: u8 = 62;

/// LongitudinalAccelerationValue ::= INTEGER { pointOneMeterPerSecSquaredForward(1),
///     pointOneMeterPerSecSquaredBackward(-1), unavailable(161) } (-160..161)
pub type LongitudinalAccelerationValue = i16;

/// `pointOneMeterPerSecSquaredForward` of LongitudinalAccelerationValue.
pub const LONGITUDINAL_ACCELERATION_VALUE_POINT_ONE_METER_PER_SEC_SQUARED_FORWARD: i16 = 1;

/// `pointOneMeterPerSecSquaredBackward` of LongitudinalAccelerationValue.
pub const LONGITUDINAL_ACCELERATION_VALUE_POINT_ONE_METER_PER_SEC_SQUARED_BACKWARD: i16 = -1;

/// `unavailable` of LongitudinalAccelerationValue.
pub const LONGITUDINAL_ACCELERATION_VALUE_UNAVAILABLE: i16 = 161;

/// AccelerationConfidence ::= INTEGER { pointOneMeterPerSecSquared(1), outOfRange(101), unavailable(102) } (0..102)
pub type AccelerationConfidence = u8;

/// `pointOneMeterPerSecSquared` of AccelerationConfidence.
pub const ACCELERATION_CONFIDENCE_POINT_ONE_METER_PER_SEC_SQUARED: u8 = 1;

/// `outOfRange` of AccelerationConfidence.
pub const ACCELERATION_CONFIDENCE_OUT_OF_RANGE: u8 = 101;

/// `unavailable` of AccelerationConfidence.
pub const ACCELERATION_CONFIDENCE_UNAVAILABLE: u8 = 102;

/// CurvatureValue ::= INTEGER { straight(0), unavailable(1023) } (-1023..1023)
pub type CurvatureValue = i16;

/// `straight` of CurvatureValue.
pub const CURVATURE_VALUE_STRAIGHT: i16 = 0;

/// `unavailable` of CurvatureValue.
pub const CURVATURE_VALUE_UNAVAILABLE: i16 = 1023;

/// YawRateValue ::= INTEGER { straight(0), degSec-000-01ToRight(-1), degSec-000-01ToLeft(1), unavailable(32767) }
///     (-32766..32767)
pub type YawRateValue = i16;

/// `straight` of YawRateValue.
pub const YAW_RATE_VALUE_STRAIGHT: i16 = 0;

/// `degSec-000-01ToRight` of YawRateValue.
pub const YAW_RATE_VALUE_DEG_SEC_000_01_TO_RIGHT: i16 = -1;

/// `degSec-000-01ToLeft` of YawRateValue.
pub const YAW_RATE_VALUE_DEG_SEC_000_01_TO_LEFT: i16 = 1;

/// `unavailable` of YawRateValue.
pub const YAW_RATE_VALUE_UNAVAILABLE: i16 = 32_767;

/// AccelerationControl ::= BIT STRING { brakePedalEngaged(0), gasPedalEngaged(1), emergencyBrakeEngaged(2),
///     collisionWarningEngaged(3), accEngaged(4), cruiseControlEngaged(5), speedLimiterEngaged(6) } (SIZE (7))
pub type AccelerationControl = BitString;

/// The place of the bit `brakePedalEngaged` of AccelerationControl.
pub const ACCELERATION_CONTROL_BRAKE_PEDAL_ENGAGED: usize = 0;

/// The place of the bit `gasPedalEngaged` of AccelerationControl.
pub const ACCELERATION_CONTROL_GAS_PEDAL_ENGAGED: usize = 1;

/// The place of the bit `emergencyBrakeEngaged` of AccelerationControl.
pub const ACCELERATION_CONTROL_EMERGENCY_BRAKE_ENGAGED: usize = 2;

/// The place of the bit `collisionWarningEngaged` of AccelerationControl.
pub const ACCELERATION_CONTROL_COLLISION_WARNING_ENGAGED: usize = 3;

/// The place of the bit `accEngaged` of AccelerationControl.
pub const ACCELERATION_CONTROL_ACC_ENGAGED: usize = 4;

/// The place of the bit `cruiseControlEngaged` of AccelerationControl.
pub const ACCELERATION_CONTROL_CRUISE_CONTROL_ENGAGED: usize = 5;

/// The place of the bit `speedLimiterEngaged` of AccelerationControl.
pub const ACCELERATION_CONTROL_SPEED_LIMITER_ENGAGED: usize = 6;

/// LanePosition ::= INTEGER { offTheRoad(-1), innerHardShoulder(0), innermostDrivingLane(1),
///     secondLaneFromInside(2), outerHardShoulder(14) } (-1..14)
pub type LanePosition = i8;

/// `offTheRoad` of LanePosition.
pub const LANE_POSITION_OFF_THE_ROAD: i8 = -1;

/// `innerHardShoulder` of LanePosition.
pub const LANE_POSITION_INNER_HARD_SHOULDER: i8 = 0;

/// `innermostDrivingLane` of LanePosition.
pub const LANE_POSITION_INNERMOST_DRIVING_LANE: i8 = 1;

/// `secondLaneFromInside` of LanePosition.
pub const LANE_POSITION_SECOND_LANE_FROM_INSIDE: i8 = 2;

/// `outerHardShoulder` of LanePosition.
pub const LANE_POSITION_OUTER_HARD_SHOULDER: i8 = 14;

/// SteeringWheelAngleValue ::= INTEGER { straight(0), onePointFiveDegreesToRight(-1), onePointFiveDegreesToLeft(1),
///     unavailable(512) } (-511..512)
pub type SteeringWheelAngleValue = i16;

/// `straight` of SteeringWheelAngleValue.
pub const STEERING_WHEEL_ANGLE_VALUE_STRAIGHT: i16 = 0;

/// `onePointFiveDegreesToRight` of SteeringWheelAngleValue.
pub const STEERING_WHEEL_ANGLE_VALUE_ONE_POINT_FIVE_DEGREES_TO_RIGHT: i16 = -1;

/// `onePointFiveDegreesToLeft` of SteeringWheelAngleValue.
pub const STEERING_WHEEL_ANGLE_VALUE_ONE_POINT_FIVE_DEGREES_TO_LEFT: i16 = 1;

/// `unavailable` of SteeringWheelAngleValue.
pub const STEERING_WHEEL_ANGLE_VALUE_UNAVAILABLE: i16 = 512;

/// SteeringWheelAngleConfidence ::= INTEGER { equalOrWithinOnePointFiveDegree(1), outOfRange(126), unavailable(127)
///     } (1..127)
pub type SteeringWheelAngleConfidence = u8;

/// `equalOrWithinOnePointFiveDegree` of SteeringWheelAngleConfidence.
pub const STEERING_WHEEL_ANGLE_CONFIDENCE_EQUAL_OR_WITHIN_ONE_POINT_FIVE_DEGREE: u8 = 1;

/// `outOfRange` of SteeringWheelAngleConfidence.
pub const STEERING_WHEEL_ANGLE_CONFIDENCE_OUT_OF_RANGE: u8 = 126;

/// `unavailable` of SteeringWheelAngleConfidence.
pub const STEERING_WHEEL_ANGLE_CONFIDENCE_UNAVAILABLE: u8 = 127;

/// LateralAccelerationValue ::= INTEGER { pointOneMeterPerSecSquaredToRight(-1),
///     pointOneMeterPerSecSquaredToLeft(1), unavailable(161) } (-160..161)
pub type LateralAccelerationValue = i16;

/// `pointOneMeterPerSecSquaredToRight` of LateralAccelerationValue.
pub const LATERAL_ACCELERATION_VALUE_POINT_ONE_METER_PER_SEC_SQUARED_TO_RIGHT: i16 = -1;

/// `pointOneMeterPerSecSquaredToLeft` of LateralAccelerationValue.
pub const LATERAL_ACCELERATION_VALUE_POINT_ONE_METER_PER_SEC_SQUARED_TO_LEFT: i16 = 1;

/// `unavailable` of LateralAccelerationValue.
pub const LATERAL_ACCELERATION_VALUE_UNAVAILABLE: i16 = 161;

/// VerticalAccelerationValue ::= INTEGER { pointOneMeterPerSecSquaredUp(1), pointOneMeterPerSecSquaredDown(-1),
///     unavailable(161) } (-160..161)
pub type VerticalAccelerationValue = i16;

/// `pointOneMeterPerSecSquaredUp` of VerticalAccelerationValue.
pub const VERTICAL_ACCELERATION_VALUE_POINT_ONE_METER_PER_SEC_SQUARED_UP: i16 = 1;

/// `pointOneMeterPerSecSquaredDown` of VerticalAccelerationValue.
pub const VERTICAL_ACCELERATION_VALUE_POINT_ONE_METER_PER_SEC_SQUARED_DOWN: i16 = -1;

/// `unavailable` of VerticalAccelerationValue.
pub const VERTICAL_ACCELERATION_VALUE_UNAVAILABLE: i16 = 161;

/// PerformanceClass ::= INTEGER { unavailable(0), performanceClassA(1), performanceClassB(2) } (0..7)
pub type PerformanceClass = u8;

/// `unavailable` of PerformanceClass.
pub const PERFORMANCE_CLASS_UNAVAILABLE: u8 = 0;

/// `performanceClassA` of PerformanceClass.
pub const PERFORMANCE_CLASS_PERFORMANCE_CLASS_A: u8 = 1;

/// `performanceClassB` of PerformanceClass.
pub const PERFORMANCE_CLASS_PERFORMANCE_CLASS_B: u8 = 2;

/// ProtectedZoneID ::= INTEGER (0..134217727)
pub type ProtectedZoneId = u32;

/// CenDsrcTollingZoneID ::= ProtectedZoneID
pub type CenDsrcTollingZoneId = ProtectedZoneId;

/// TimestampIts ::= INTEGER { utcStartOf2004(0), oneMillisecAfterUTCStartOf2004(1) } (0..4398046511103)
pub type TimestampIts = u64;

/// `utcStartOf2004` of TimestampIts.
pub const TIMESTAMP_ITS_UTC_START_OF2004: u64 = 0;

/// `oneMillisecAfterUTCStartOf2004` of TimestampIts.
pub const TIMESTAMP_ITS_ONE_MILLISEC_AFTER_UTC_START_OF2004: u64 = 1;

/// ProtectedZoneRadius ::= INTEGER { oneMeter(1) } (1..255, ...)
pub type ProtectedZoneRadius = Integer;

/// `oneMeter` of ProtectedZoneRadius.
pub const PROTECTED_ZONE_RADIUS_ONE_METER: i128 = 1;

/// ProtectedCommunicationZonesRSU ::= SEQUENCE (SIZE (1..16)) OF ProtectedCommunicationZone
pub type ProtectedCommunicationZonesRsu = Vec<ProtectedCommunicationZone>;

/// ExteriorLights ::= BIT STRING { lowBeamHeadlightsOn(0), highBeamHeadlightsOn(1), leftTurnSignalOn(2),
///     rightTurnSignalOn(3), daytimeRunningLightsOn(4), reverseLightOn(5), fogLightOn(6), parkingLightsOn(7) }
///     (SIZE (8))
pub type ExteriorLights = BitString;

/// The place of the bit `lowBeamHeadlightsOn` of ExteriorLights.
pub const EXTERIOR_LIGHTS_LOW_BEAM_HEADLIGHTS_ON: usize = 0;

/// The place of the bit `highBeamHeadlightsOn` of ExteriorLights.
pub const EXTERIOR_LIGHTS_HIGH_BEAM_HEADLIGHTS_ON: usize = 1;

/// The place of the bit `leftTurnSignalOn` of ExteriorLights.
pub const EXTERIOR_LIGHTS_LEFT_TURN_SIGNAL_ON: usize = 2;

/// The place of the bit `rightTurnSignalOn` of ExteriorLights.
pub const EXTERIOR_LIGHTS_RIGHT_TURN_SIGNAL_ON: usize = 3;

/// The place of the bit `daytimeRunningLightsOn` of ExteriorLights.
pub const EXTERIOR_LIGHTS_DAYTIME_RUNNING_LIGHTS_ON: usize = 4;

/// The place of the bit `reverseLightOn` of ExteriorLights.
pub const EXTERIOR_LIGHTS_REVERSE_LIGHT_ON: usize = 5;

/// The place of the bit `fogLightOn` of ExteriorLights.
pub const EXTERIOR_LIGHTS_FOG_LIGHT_ON: usize = 6;

/// The place of the bit `parkingLightsOn` of ExteriorLights.
pub const EXTERIOR_LIGHTS_PARKING_LIGHTS_ON: usize = 7;

/// DeltaLatitude ::= INTEGER { oneMicrodegreeNorth(10), oneMicrodegreeSouth(-10), unavailable(131072) }
///     (-131071..131072)
pub type DeltaLatitude = i32;

/// `oneMicrodegreeNorth` of DeltaLatitude.
pub const DELTA_LATITUDE_ONE_MICRODEGREE_NORTH: i32 = 10;

/// `oneMicrodegreeSouth` of DeltaLatitude.
pub const DELTA_LATITUDE_ONE_MICRODEGREE_SOUTH: i32 = -10;

/// `unavailable` of DeltaLatitude.
pub const DELTA_LATITUDE_UNAVAILABLE: i32 = 131_072;

/// DeltaLongitude ::= INTEGER { oneMicrodegreeEast(10), oneMicrodegreeWest(-10), unavailable(131072) }
///     (-131071..131072)
pub type DeltaLongitude = i32;

/// `oneMicrodegreeEast` of DeltaLongitude.
pub const DELTA_LONGITUDE_ONE_MICRODEGREE_EAST: i32 = 10;

/// `oneMicrodegreeWest` of DeltaLongitude.
pub const DELTA_LONGITUDE_ONE_MICRODEGREE_WEST: i32 = -10;

/// `unavailable` of DeltaLongitude.
pub const DELTA_LONGITUDE_UNAVAILABLE: i32 = 131_072;

/// DeltaAltitude ::= INTEGER { oneCentimeterUp(1), oneCentimeterDown(-1), unavailable(12800) } (-12700..12800)
pub type DeltaAltitude = i16;

/// `oneCentimeterUp` of DeltaAltitude.
pub const DELTA_ALTITUDE_ONE_CENTIMETER_UP: i16 = 1;

/// `oneCentimeterDown` of DeltaAltitude.
pub const DELTA_ALTITUDE_ONE_CENTIMETER_DOWN: i16 = -1;

/// `unavailable` of DeltaAltitude.
pub const DELTA_ALTITUDE_UNAVAILABLE: i16 = 12_800;

/// PathDeltaTime ::= INTEGER { tenMilliSecondsInPast(1) } (1..65535, ...)
pub type PathDeltaTime = Integer;

/// `tenMilliSecondsInPast` of PathDeltaTime.
pub const PATH_DELTA_TIME_TEN_MILLI_SECONDS_IN_PAST: i128 = 1;

/// PathHistory ::= SEQUENCE (SIZE (0..40)) OF PathPoint
pub type PathHistory = Vec<PathPoint>;

/// EmbarkationStatus ::= BOOLEAN
pub type EmbarkationStatus = bool;

/// PtActivationType ::= INTEGER { undefinedCodingType(0), r09-16CodingType(1), vdv-50149CodingType(2) } (0..255)
pub type PtActivationType = u8;

/// `undefinedCodingType` of PtActivationType.
pub const PT_ACTIVATION_TYPE_UNDEFINED_CODING_TYPE: u8 = 0;

/// `r09-16CodingType` of PtActivationType.
pub const PT_ACTIVATION_TYPE_R09_16_CODING_TYPE: u8 = 1;

/// `vdv-50149CodingType` of PtActivationType.
pub const PT_ACTIVATION_TYPE_VDV_50149_CODING_TYPE: u8 = 2;

/// PtActivationData ::= OCTET STRING (SIZE (1..20))
pub type PtActivationData = OctetString;

/// SpecialTransportType ::= BIT STRING { heavyLoad(0), excessWidth(1), excessLength(2), excessHeight(3) } (SIZE
///     (4))
pub type SpecialTransportType = BitString;

/// The place of the bit `heavyLoad` of SpecialTransportType.
pub const SPECIAL_TRANSPORT_TYPE_HEAVY_LOAD: usize = 0;

/// The place of the bit `excessWidth` of SpecialTransportType.
pub const SPECIAL_TRANSPORT_TYPE_EXCESS_WIDTH: usize = 1;

/// The place of the bit `excessLength` of SpecialTransportType.
pub const SPECIAL_TRANSPORT_TYPE_EXCESS_LENGTH: usize = 2;

/// The place of the bit `excessHeight` of SpecialTransportType.
pub const SPECIAL_TRANSPORT_TYPE_EXCESS_HEIGHT: usize = 3;

/// LightBarSirenInUse ::= BIT STRING { lightBarActivated(0), sirenActivated(1) } (SIZE (2))
pub type LightBarSirenInUse = BitString;

/// The place of the bit `lightBarActivated` of LightBarSirenInUse.
pub const LIGHT_BAR_SIREN_IN_USE_LIGHT_BAR_ACTIVATED: usize = 0;

/// The place of the bit `sirenActivated` of LightBarSirenInUse.
pub const LIGHT_BAR_SIREN_IN_USE_SIREN_ACTIVATED: usize = 1;

/// RoadworksSubCauseCode ::= INTEGER { unavailable(0), majorRoadworks(1), roadMarkingWork(2),
///     slowMovingRoadMaintenance(3), shortTermStationaryRoadworks(4), streetCleaning(5), winterService(6) }
///     (0..255)
pub type RoadworksSubCauseCode = u8;

/// `unavailable` of RoadworksSubCauseCode.
pub const ROADWORKS_SUB_CAUSE_CODE_UNAVAILABLE: u8 = 0;

/// `majorRoadworks` of RoadworksSubCauseCode.
pub const ROADWORKS_SUB_CAUSE_CODE_MAJOR_ROADWORKS: u8 = 1;

/// `roadMarkingWork` of RoadworksSubCauseCode.
pub const ROADWORKS_SUB_CAUSE_CODE_ROAD_MARKING_WORK: u8 = 2;

/// `slowMovingRoadMaintenance` of RoadworksSubCauseCode.
pub const ROADWORKS_SUB_CAUSE_CODE_SLOW_MOVING_ROAD_MAINTENANCE: u8 = 3;

/// `shortTermStationaryRoadworks` of RoadworksSubCauseCode.
pub const ROADWORKS_SUB_CAUSE_CODE_SHORT_TERM_STATIONARY_ROADWORKS: u8 = 4;

/// `streetCleaning` of RoadworksSubCauseCode.
pub const ROADWORKS_SUB_CAUSE_CODE_STREET_CLEANING: u8 = 5;

/// `winterService` of RoadworksSubCauseCode.
pub const ROADWORKS_SUB_CAUSE_CODE_WINTER_SERVICE: u8 = 6;

/// DrivingLaneStatus ::= BIT STRING (SIZE (1..13))
pub type DrivingLaneStatus = BitString;

/// CauseCodeType ::= INTEGER { reserved(0), trafficCondition(1), accident(2), roadworks(3), impassability(5),
///     adverseWeatherCondition-Adhesion(6), aquaplannning(7), hazardousLocation-SurfaceCondition(9),
///     hazardousLocation-ObstacleOnTheRoad(10), hazardousLocation-AnimalOnTheRoad(11), humanPresenceOnTheRoad(12),
///     wrongWayDriving(14), rescueAndRecoveryWorkInProgress(15),
///     adverseWeatherCondition-ExtremeWeatherCondition(17), adverseWeatherCondition-Visibility(18),
///     adverseWeatherCondition-Precipitation(19), slowVehicle(26), dangerousEndOfQueue(27), vehicleBreakdown(91),
///     postCrash(92), humanProblem(93), stationaryVehicle(94), emergencyVehicleApproaching(95),
///     hazardousLocation-DangerousCurve(96), collisionRisk(97), signalViolation(98), dangerousSituation(99) }
///     (0..255)
pub type CauseCodeType = u8;

/// `reserved` of CauseCodeType.
pub const CAUSE_CODE_TYPE_RESERVED: u8 = 0;

/// `trafficCondition` of CauseCodeType.
pub const CAUSE_CODE_TYPE_TRAFFIC_CONDITION: u8 = 1;

/// `accident` of CauseCodeType.
pub const CAUSE_CODE_TYPE_ACCIDENT: u8 = 2;

/// `roadworks` of CauseCodeType.
pub const CAUSE_CODE_TYPE_ROADWORKS: u8 = 3;

/// `impassability` of CauseCodeType.
pub const CAUSE_CODE_TYPE_IMPASSABILITY: u8 = 5;

/// `adverseWeatherCondition-Adhesion` of CauseCodeType.
pub const CAUSE_CODE_TYPE_ADVERSE_WEATHER_CONDITION_ADHESION: u8 = 6;

/// `aquaplannning` of CauseCodeType.
pub const CAUSE_CODE_TYPE_AQUAPLANNNING: u8 = 7;

/// `hazardousLocation-SurfaceCondition` of CauseCodeType.
pub const CAUSE_CODE_TYPE_HAZARDOUS_LOCATION_SURFACE_CONDITION: u8 = 9;

/// `hazardousLocation-ObstacleOnTheRoad` of CauseCodeType.
pub const CAUSE_CODE_TYPE_HAZARDOUS_LOCATION_OBSTACLE_ON_THE_ROAD: u8 = 10;

/// `hazardousLocation-AnimalOnTheRoad` of CauseCodeType.
pub const CAUSE_CODE_TYPE_HAZARDOUS_LOCATION_ANIMAL_ON_THE_ROAD: u8 = 11;

/// `humanPresenceOnTheRoad` of CauseCodeType.
pub const CAUSE_CODE_TYPE_HUMAN_PRESENCE_ON_THE_ROAD: u8 = 12;

/// `wrongWayDriving` of CauseCodeType.
pub const CAUSE_CODE_TYPE_WRONG_WAY_DRIVING: u8 = 14;

/// `rescueAndRecoveryWorkInProgress` of CauseCodeType.
pub const CAUSE_CODE_TYPE_RESCUE_AND_RECOVERY_WORK_IN_PROGRESS: u8 = 15;

/// `adverseWeatherCondition-ExtremeWeatherCondition` of CauseCodeType.
pub const CAUSE_CODE_TYPE_ADVERSE_WEATHER_CONDITION_EXTREME_WEATHER_CONDITION: u8 = 17;

/// `adverseWeatherCondition-Visibility` of CauseCodeType.
pub const CAUSE_CODE_TYPE_ADVERSE_WEATHER_CONDITION_VISIBILITY: u8 = 18;

/// `adverseWeatherCondition-Precipitation` of CauseCodeType.
pub const CAUSE_CODE_TYPE_ADVERSE_WEATHER_CONDITION_PRECIPITATION: u8 = 19;

/// `slowVehicle` of CauseCodeType.
pub const CAUSE_CODE_TYPE_SLOW_VEHICLE: u8 = 26;

/// `dangerousEndOfQueue` of CauseCodeType.
pub const CAUSE_CODE_TYPE_DANGEROUS_END_OF_QUEUE: u8 = 27;

/// `vehicleBreakdown` of CauseCodeType.
pub const CAUSE_CODE_TYPE_VEHICLE_BREAKDOWN: u8 = 91;

/// `postCrash` of CauseCodeType.
pub const CAUSE_CODE_TYPE_POST_CRASH: u8 = 92;

/// `humanProblem` of CauseCodeType.
pub const CAUSE_CODE_TYPE_HUMAN_PROBLEM: u8 = 93;

/// `stationaryVehicle` of CauseCodeType.
pub const CAUSE_CODE_TYPE_STATIONARY_VEHICLE: u8 = 94;

/// `emergencyVehicleApproaching` of CauseCodeType.
pub const CAUSE_CODE_TYPE_EMERGENCY_VEHICLE_APPROACHING: u8 = 95;

/// `hazardousLocation-DangerousCurve` of CauseCodeType.
pub const CAUSE_CODE_TYPE_HAZARDOUS_LOCATION_DANGEROUS_CURVE: u8 = 96;

/// `collisionRisk` of CauseCodeType.
pub const CAUSE_CODE_TYPE_COLLISION_RISK: u8 = 97;

/// `signalViolation` of CauseCodeType.
pub const CAUSE_CODE_TYPE_SIGNAL_VIOLATION: u8 = 98;

/// `dangerousSituation` of CauseCodeType.
pub const CAUSE_CODE_TYPE_DANGEROUS_SITUATION: u8 = 99;

/// SubCauseCodeType ::= INTEGER (0..255)
pub type SubCauseCodeType = u8;

/// EmergencyPriority ::= BIT STRING { requestForRightOfWay(0), requestForFreeCrossingAtATrafficLight(1) } (SIZE
///     (2))
pub type EmergencyPriority = BitString;

/// The place of the bit `requestForRightOfWay` of EmergencyPriority.
pub const EMERGENCY_PRIORITY_REQUEST_FOR_RIGHT_OF_WAY: usize = 0;

/// The place of the bit `requestForFreeCrossingAtATrafficLight` of EmergencyPriority.
pub const EMERGENCY_PRIORITY_REQUEST_FOR_FREE_CROSSING_AT_A_TRAFFIC_LIGHT: usize = 1;

/// SpeedLimit ::= INTEGER { oneKmPerHour(1) } (1..255)
pub type SpeedLimit = u8;

/// `oneKmPerHour` of SpeedLimit.
pub const SPEED_LIMIT_ONE_KM_PER_HOUR: u8 = 1;
